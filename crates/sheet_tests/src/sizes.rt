// The sizes that a load takes: records, pools, the length of the file, depth, places of the table.
use crate::build::*;
use layout::fault::LoadFault;
use layout::record::Record;
use std::alloc::{AllocError, Global};
use std::test::Fail;

fn refusal_of_count(heap: Global, count: usize) -> Result<Option<LoadFault>, AllocError> {
    let records = flat(heap, count)?;
    refusal_of(heap, records.as_slice())
}

#[test]
fn records_are_1_to_1024(rt: HostRuntime) -> Result<(), Fail> {
    let heap = rt.alloc();
    let none = file(heap, &[], b"", b"")?;
    assert_eq!(rt;
        refusal(heap, none.as_slice())?,
        Some(LoadFault::OutOfRange)
    );
    assert_eq!(rt; refusal_of_count(heap, 1)?, None);
    assert_eq!(rt; refusal_of_count(heap, 1024)?, None);
    assert_eq!(rt; refusal_of_count(heap, 1025)?, Some(LoadFault::OutOfRange));
    Ok(())
}

fn refusal_of_pools(
    heap: Global,
    names: usize,
    strings: usize,
) -> Result<Option<LoadFault>, AllocError> {
    let names = vec![in heap; b'n'; names]?;
    let strings = vec![in heap; b's'; strings]?;
    let bytes = file(heap, &[brace(1, 0)], names.as_slice(), strings.as_slice())?;
    refusal(heap, bytes.as_slice())
}

#[test]
fn pools_have_up_to_8192_bytes(rt: HostRuntime) -> Result<(), Fail> {
    let heap = rt.alloc();
    let cases = [
        (0, 0, true),
        (8192, 0, true),
        (8193, 0, false),
        (0, 8192, true),
        (0, 8193, false),
        (8192, 8192, true),
    ];
    for (names, strings, taken) in cases {
        let want = (!taken).then_some(LoadFault::OutOfRange);
        assert_eq!(rt;
            refusal_of_pools(heap, names, strings)?,
            want,
            "{names} and {strings} bytes"
        );
    }
    Ok(())
}

// The head is looked at before the length: each of these files is the head alone.
#[test]
fn head_is_checked_before_the_length(rt: HostRuntime) -> Result<(), Fail> {
    let heap = rt.alloc();
    let cases = [
        (0, 0, 0, LoadFault::OutOfRange),
        (1025, 0, 0, LoadFault::OutOfRange),
        (u32::MAX, 0, 0, LoadFault::OutOfRange),
        (1, 8193, 0, LoadFault::OutOfRange),
        (1, u32::MAX, 0, LoadFault::OutOfRange),
        (1, 0, 8193, LoadFault::OutOfRange),
        (1, 0, u32::MAX, LoadFault::OutOfRange),
        (1, 0, 0, LoadFault::WrongLength),
        (1024, 8192, 8192, LoadFault::WrongLength),
    ];
    for (count, names, strings, want) in cases {
        let bytes = head(heap, count, names, strings)?;
        assert_eq!(rt;
            refusal(heap, bytes.as_slice())?,
            Some(want),
            "{count}, {names}, {strings}"
        );
    }
    Ok(())
}

#[test]
fn under_12_bytes_is_short(rt: HostRuntime) -> Result<(), Fail> {
    let heap = rt.alloc();
    for len in 0..12usize {
        let bytes = vec![in heap; 1u8; len]?;
        assert_eq!(rt;
            refusal(heap, bytes.as_slice())?,
            Some(LoadFault::Short),
            "{len} bytes"
        );
    }
    Ok(())
}

#[test]
fn length_is_exact(rt: HostRuntime) -> Result<(), Fail> {
    let heap = rt.alloc();
    let mut bytes = file(heap, &[brace(1, 1), ident(0, 2)], b"ab", b"cde")?;
    assert_eq!(rt; refusal(heap, bytes.as_slice())?, None);
    bytes.push(0)?;
    assert_eq!(rt;
        refusal(heap, bytes.as_slice())?,
        Some(LoadFault::WrongLength),
        "one byte long"
    );
    bytes.truncate(12 + 64 + 2 + 3 - 1);
    assert_eq!(rt;
        refusal(heap, bytes.as_slice())?,
        Some(LoadFault::WrongLength),
        "one byte short"
    );
    Ok(())
}

// Nested braces down to a depth, and then these records.
fn refusal_below(
    heap: Global,
    depth: u32,
    last: &[Record],
) -> Result<Option<LoadFault>, AllocError> {
    let mut records = nest(heap, depth)?;
    records.extend_from_slice(last)?;
    refusal_of(heap, records.as_slice())
}

#[test]
fn depth_is_up_to_32(rt: HostRuntime) -> Result<(), Fail> {
    let heap = rt.alloc();
    assert_eq!(rt; refusal_below(heap, 32, &[Record::default()])?, None);
    assert_eq!(rt;
        refusal_below(heap, 32, &[brace(33, 0)])?,
        None,
        "an empty brace at depth 32"
    );
    assert_eq!(rt;
        refusal_below(heap, 33, &[Record::default()])?,
        Some(LoadFault::TooDeep(33))
    );
    // a brace at depth 31 with two records at depth 32, the second a brace with two records at depth 33
    let last = [
        brace(32, 2),
        Record::default(),
        brace(34, 2),
        Record::default(),
        Record::default(),
    ];
    assert_eq!(rt;
        refusal_below(heap, 31, &last)?,
        Some(LoadFault::TooDeep(34))
    );
    let last = [
        brace(32, 3),
        Record::default(),
        brace(35, 0),
        Record::default(),
    ];
    assert_eq!(rt; refusal_below(heap, 31, &last)?, None);
    Ok(())
}

#[test]
fn table_has_a_place_for_each_record(rt: HostRuntime) -> Result<(), Fail> {
    let heap = rt.alloc();
    let three = file(
        heap,
        &[brace(1, 2), Record::default(), Record::default()],
        b"",
        b"",
    )?;
    assert_eq!(rt; refusal_with(heap, three.as_slice(), 3)?, None);
    assert_eq!(rt;
        refusal_with(heap, three.as_slice(), 2)?,
        Some(LoadFault::SmallTable)
    );
    assert_eq!(rt;
        refusal_with(heap, three.as_slice(), 0)?,
        Some(LoadFault::SmallTable)
    );
    let off_line = file(heap, &[brace(1, 1), group(4, 2, 0)], b"", b"")?;
    assert_eq!(rt;
        refusal_with(heap, off_line.as_slice(), 1)?,
        Some(LoadFault::SmallTable),
        "before the records"
    );
    Ok(())
}
