// What a load leaves in the record table.
use crate::build::*;
use layout::record::Record;
use load::load::load;
use std::alloc::Global;
use std::process::Abort;
use std::test::Fail;

const RECORDS: [Record; 3] = [
    Record {
        kind: 3,
        sub: 1,
        mark: 1,
        a: 1,
        b: 2,
        place: 4,
        value: 5,
        bits: 6,
    },
    Record {
        kind: 0,
        sub: 2,
        mark: 0x203,
        a: 1,
        b: 2,
        place: 0x4050607,
        value: 0x8090a0b0c0d0e0f,
        bits: 0x1011121314151617,
    },
    Record {
        kind: 2,
        sub: 5,
        mark: 1,
        a: u32::MAX,
        b: 0,
        place: u32::MAX,
        value: u64::MAX,
        bits: 0x7ff0_0000_0000_0000,
    },
];

// What a place of the table holds before a load.
const OLD: Record = Record {
    kind: 9,
    sub: 8,
    mark: 7,
    a: 6,
    b: 5,
    place: 4,
    value: 3,
    bits: 2,
};

#[test]
fn accepted_load_fills_the_first_places(rt: HostRuntime) -> Result<(), Fail> {
    let heap = rt.alloc();
    let bytes = file(heap, &RECORDS, b"abcd", b"efg")?;
    let mut table = [OLD; 5];
    let loaded = load(bytes.as_slice(), &mut table)?;
    assert_eq!(rt; loaded.count, 3);
    assert_eq!(rt; loaded.names, b"abcd".as_slice());
    assert_eq!(rt; loaded.strings, b"efg".as_slice());
    assert_eq!(rt; table, [RECORDS[0], RECORDS[1], RECORDS[2], OLD, OLD]);
    Ok(())
}

fn check_unchanged(rt: &impl Abort, bytes: &[u8], number: u8) -> Result<(), Fail> {
    let mut table = [OLD; 40];
    let Err(fault) = load(bytes, &mut table) else {
        return Err(Fail::new("loaded"));
    };
    assert_eq!(rt; fault.number(), number);
    assert_eq!(rt; table, [OLD; 40], "refused with {number}");
    Ok(())
}

fn check_refused(
    rt: &impl Abort,
    heap: Global,
    records: &[Record],
    number: u8,
) -> Result<(), Fail> {
    let bytes = file(heap, records, b"abcd", b"")?;
    check_unchanged(rt, bytes.as_slice(), number)
}

#[test]
fn refused_load_leaves_the_table(rt: HostRuntime) -> Result<(), Fail> {
    let heap = rt.alloc();
    let [root, name, _] = RECORDS;
    check_unchanged(&rt, b"short", 1)?;
    check_refused(&rt, heap, &[], 2)?;
    let lone_head = head(heap, 3, 0, 0)?;
    check_unchanged(&rt, lone_head.as_slice(), 3)?;
    check_refused(&rt, heap, &[root, name, literal(8)], 4)?;
    check_refused(&rt, heap, &[root, name, brace(2, 0)], 5)?;
    let mut deep = nest(heap, 33)?;
    deep.push(Record::default())?;
    check_refused(&rt, heap, deep.as_slice(), 6)?;
    let many = flat(heap, 41)?;
    check_refused(&rt, heap, many.as_slice(), 7)
}
