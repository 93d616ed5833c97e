// The fields that each kind of record allows.
use crate::build::*;
use layout::fault::LoadFault;
use layout::record::Record;
use sheet::token::Punct;
use std::alloc::Global;
use std::process::Abort;
use std::test::Fail;

const PUNCTS: &[u8] = b"=<>!~+-*/%^&|@.,;:#$?'";

const INFINITY: u64 = 0x7ff0_0000_0000_0000;

// A brace with this record as its body loads, or is refused at it.
fn check_line(rt: &impl Abort, heap: Global, record: Record, taken: bool) -> Result<(), Fail> {
    let want = (!taken).then_some(LoadFault::OffLine(1));
    assert_eq!(rt; refusal_of_one(heap, record)?, want, "{record:?}");
    Ok(())
}

#[test]
fn puncts_are_22(rt: HostRuntime) -> Result<(), Fail> {
    let heap = rt.alloc();
    assert_eq!(rt; PUNCTS.len(), 22);
    for code in 0..=255u8 {
        let taken = PUNCTS.contains(&code);
        check_line(&rt, heap, punct(code), taken)?;
        assert_eq!(rt; Punct::new(code).is_some(), taken, "code {code}");
    }
    Ok(())
}

// A sub of 1 fits every kind but the punct, whose codes are tried above.
#[test]
fn kinds_and_literals_and_groups_are_few(rt: HostRuntime) -> Result<(), Fail> {
    let heap = rt.alloc();
    for code in 0..=255u8 {
        let record = Record {
            kind: code,
            sub: 1,
            a: 2,
            ..Record::default()
        };
        check_line(&rt, heap, record, matches!(code, 0 | 2 | 3))?;
        check_line(&rt, heap, literal(code), code <= 7)?;
        check_line(&rt, heap, group(code, 2, 0), code <= 3)?;
    }
    Ok(())
}

// Both pools have four bytes.
#[test]
fn parts_end_inside_their_pool(rt: HostRuntime) -> Result<(), Fail> {
    let heap = rt.alloc();
    let cases = [
        (0, 4, true),
        (0, 5, false),
        (3, 1, true),
        (3, 2, false),
        (4, 0, true),
        (4, 1, false),
        (5, 0, false),
        (1, u32::MAX, false),
        (u32::MAX, 1, false),
        (u32::MAX, u32::MAX, false),
    ];
    for (start, len, taken) in cases {
        check_line(&rt, heap, ident(start, len), taken)?;
        check_line(&rt, heap, string(start, len), taken)?;
    }
    Ok(())
}

// A name is a part of the names and a string one of the strings, and not the other way round.
#[test]
fn parts_are_of_their_own_pool(rt: HostRuntime) -> Result<(), Fail> {
    let heap = rt.alloc();
    let cases = [(ident(0, 2), true, false), (string(0, 2), false, true)];
    for (record, names, strings) in cases {
        let named = file(heap, &[brace(1, 1), record], b"ab", b"")?;
        assert_eq!(rt;
            refusal(heap, named.as_slice())?.is_none(),
            names,
            "{record:?}"
        );
        let stringed = file(heap, &[brace(1, 1), record], b"", b"ab")?;
        assert_eq!(rt;
            refusal(heap, stringed.as_slice())?.is_none(),
            strings,
            "{record:?}"
        );
    }
    Ok(())
}

#[test]
fn chars_are_scalar_values(rt: HostRuntime) -> Result<(), Fail> {
    let heap = rt.alloc();
    let cases = [
        (0, true),
        (0xd7ff, true),
        (0xd800, false),
        (0xdfff, false),
        (0xe000, true),
        (0x10ffff, true),
        (0x110000, false),
        (0x1_0000_0061, false),
        (u64::MAX, false),
    ];
    for (value, taken) in cases {
        check_line(&rt, heap, char_literal(value), taken)?;
    }
    Ok(())
}

#[test]
fn numbers_have_a_mark_and_a_pattern(rt: HostRuntime) -> Result<(), Fail> {
    let heap = rt.alloc();
    // a mark, a pattern, whether an integer may have both, and whether a float may have the pattern
    let cases = [
        (0, 0, true, true),
        (1, 0, true, true),
        (2, 0, false, true),
        (256, 0, false, true),
        (u16::MAX, 0, false, true),
        (1, INFINITY, true, true),
        (0, INFINITY, true, true),
        (0, INFINITY + 1, false, false),
        (0, 1 << 63, false, false),
        (0, u64::MAX, false, false),
    ];
    for (mark, bits, in_integer, in_float) in cases {
        check_line(&rt, heap, integer(mark, u64::MAX, bits), in_integer)?;
        check_line(&rt, heap, float(bits), in_float)?;
    }
    Ok(())
}

// What a kind does not use may hold anything.
#[test]
fn unused_fields_are_free(rt: HostRuntime) -> Result<(), Fail> {
    let heap = rt.alloc();
    let full = Record {
        kind: 0,
        sub: 255,
        mark: 9,
        a: u32::MAX,
        b: u32::MAX,
        place: u32::MAX,
        value: u64::MAX,
        bits: u64::MAX,
    };
    let lawful = [
        Record { a: 1, b: 3, ..full },
        Record {
            kind: 1,
            sub: b'=',
            ..full
        },
        Record {
            kind: 2,
            sub: 7,
            ..full
        },
        Record {
            kind: 3,
            sub: 3,
            a: 2,
            b: 0,
            ..full
        },
    ];
    for record in lawful {
        check_line(&rt, heap, record, true)?;
    }
    Ok(())
}
