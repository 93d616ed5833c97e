// Where the bodies of groups lie, and which of several faults is named.
use crate::build::*;
use layout::fault::LoadFault;
use layout::record::Record;
use std::alloc::Global;
use std::process::Abort;
use std::test::Fail;

#[test]
fn record_0_is_a_brace_round_all(rt: HostRuntime) -> Result<(), Fail> {
    let heap = rt.alloc();
    assert_eq!(rt; refusal_of(heap, &[brace(1, 1), Record::default()])?, None);
    let roots = [
        group(0, 1, 1),
        group(2, 1, 1),
        group(3, 1, 1),
        Record::default(),
        punct(b'='),
        literal(7),
        brace(0, 1),
        brace(2, 0),
        brace(1, 2),
    ];
    for root in roots {
        assert_eq!(rt;
            refusal_of(heap, &[root, Record::default()])?,
            Some(LoadFault::Misplaced(0)),
            "{root:?}"
        );
    }
    Ok(())
}

// Four records: a brace round two groups, and an identifier in the body of one of them.
fn check_bodies(
    rt: &impl Abort,
    heap: Global,
    first: Record,
    second: Record,
    want: Option<LoadFault>,
) -> Result<(), Fail> {
    let records = [brace(1, 2), first, second, Record::default()];
    assert_eq!(rt; refusal_of(heap, &records)?, want, "{first:?}, {second:?}");
    Ok(())
}

#[test]
fn bodies_follow_each_other(rt: HostRuntime) -> Result<(), Fail> {
    let heap = rt.alloc();
    let cases = [
        // right
        (brace(3, 1), brace(4, 0), None),
        (brace(3, 0), brace(3, 1), None),
        // one too early, one too late
        (brace(2, 1), brace(3, 1), Some(LoadFault::Misplaced(1))),
        (brace(4, 0), brace(4, 0), Some(LoadFault::Misplaced(1))),
        (brace(3, 1), brace(3, 1), Some(LoadFault::Misplaced(2))),
        (brace(3, 0), brace(4, 0), Some(LoadFault::Misplaced(2))),
        // past the last record, also where the sum exceeds 32 bits
        (brace(3, 2), brace(5, 0), Some(LoadFault::Misplaced(1))),
        (brace(3, 1), brace(4, 1), Some(LoadFault::Misplaced(2))),
        (
            brace(3, u32::MAX),
            brace(4, 0),
            Some(LoadFault::Misplaced(1)),
        ),
        // a body that is too short, so that the last record lies in none
        (brace(3, 0), brace(3, 0), Some(LoadFault::Misplaced(3))),
        (
            Record::default(),
            Record::default(),
            Some(LoadFault::Misplaced(3)),
        ),
    ];
    for (first, second, want) in cases {
        check_bodies(&rt, heap, first, second, want)?;
    }
    Ok(())
}

#[test]
fn first_fault_is_named(rt: HostRuntime) -> Result<(), Fail> {
    let heap = rt.alloc();
    let unknown = Record {
        kind: 4,
        ..Record::default()
    };
    let cases = [
        // off its line and misplaced
        (group(4, 9, 9), brace(3, 1), LoadFault::OffLine(1)),
        // the lower record's fault
        (brace(2, 1), unknown, LoadFault::Misplaced(1)),
        (unknown, brace(9, 9), LoadFault::OffLine(1)),
    ];
    for (first, second, want) in cases {
        check_bodies(&rt, heap, first, second, Some(want))?;
    }
    Ok(())
}

// Records at depth 33, below 33 nested braces.
fn check_deep(rt: &impl Abort, heap: Global, deep: &[Record], want: LoadFault) -> Result<(), Fail> {
    let mut records = nest(heap, 33)?;
    records.extend_from_slice(deep)?;
    assert_eq!(rt; refusal_of(heap, records.as_slice())?, Some(want));
    Ok(())
}

#[test]
fn depth_is_looked_at_last(rt: HostRuntime) -> Result<(), Fail> {
    let heap = rt.alloc();
    let unknown = Record {
        kind: 4,
        ..Record::default()
    };
    check_deep(&rt, heap, &[unknown], LoadFault::OffLine(33))?;
    check_deep(&rt, heap, &[brace(33, 0)], LoadFault::Misplaced(33))?;
    check_deep(&rt, heap, &[brace(34, 1), unknown], LoadFault::TooDeep(33))
}
