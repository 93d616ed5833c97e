// The sheet of a table and two pools.
use crate::build::*;
use crate::kinds::*;
use layout::record::Record;
use sheet::sheet::Sheet;
use sheet::token::{Delimiter, Group, Part, Token};
use std::process::Abort;
use std::test::Fail;

const EMPTY_BRACE: Token = Token::Group(Group {
    delimiter: Delimiter::Brace,
    first: 1,
    count: 0,
});

// A brace round an identifier of one byte and one without bytes; the brace has a place in the source.
fn placed() -> [Record; 3] {
    [
        Record {
            place: 5,
            ..brace(1, 2)
        },
        ident(0, 1),
        Record::default(),
    ]
}

// The sheet is an empty brace.
fn check_empty(rt: &impl Abort, sheet: &Sheet, case: &str) {
    assert_eq!(rt; sheet.count(), 1, "{case}");
    assert_eq!(rt; sheet.token(0), Some(EMPTY_BRACE), "{case}");
    assert_eq!(rt; sheet.place(0), Some(0), "{case}");
    assert!(rt;
        sheet.token(1).is_none() && sheet.tree(1).is_none() && sheet.place(1).is_none(),
        "{case}"
    );
}

#[test]
fn parts_that_break_a_rule_make_an_empty_brace(rt: HostRuntime) -> Result<(), Fail> {
    let records = placed();
    let long = vec![in rt.alloc(); b'x'; 8193]?;
    let name = b"a".as_slice();
    let none = b"".as_slice();
    let cases = [
        (4, name, none, "more records than the table has"),
        (usize::MAX, name, none, "far more records"),
        (0, name, none, "no record"),
        (2, name, none, "a body past the records"),
        (3, none, none, "a name past the names"),
        (3, long.as_slice(), none, "too many names"),
        (3, name, long.as_slice(), "too many strings"),
    ];
    for (count, names, strings, case) in cases {
        check_empty(&rt, &Sheet::new(count, &records, names, strings), case);
    }
    Ok(())
}

#[test]
fn too_many_or_too_deep_records_make_an_empty_brace(rt: HostRuntime) -> Result<(), Fail> {
    let heap = rt.alloc();
    let many = flat(heap, 1025)?;
    check_empty(
        &rt,
        &Sheet::new(1025, many.as_slice(), b"", b""),
        "1025 records",
    );
    let mut deep = nest(heap, 33)?;
    deep.push(Record::default())?;
    check_empty(&rt, &Sheet::new(34, deep.as_slice(), b"", b""), "depth 33");
    Ok(())
}

// The sheet has so many records, and the first of them at this place.
fn check_held(rt: &impl Abort, sheet: &Sheet, count: usize, place: u32) {
    assert_eq!(rt; sheet.count(), count);
    assert_eq!(rt; sheet.place(0), Some(place));
    assert!(rt; sheet.tree(count).is_none());
}

#[test]
fn greatest_and_smaller_sheets_are_held(rt: HostRuntime) -> Result<(), Fail> {
    let heap = rt.alloc();
    let many = flat(heap, 1024)?;
    let pool = vec![in heap; b'x'; 8192]?;
    let greatest = Sheet::new(1024, many.as_slice(), pool.as_slice(), pool.as_slice());
    check_held(&rt, &greatest, 1024, 0);
    let records = placed();
    check_held(&rt, &Sheet::new(3, &records, b"a", b""), 3, 5);
    Ok(())
}

#[test]
fn lawful_parts_are_held(rt: HostRuntime) {
    let records = all_kinds();
    let sheet = Sheet::new(15, &records, NAMES, STRINGS);
    assert_eq!(rt; sheet.count(), 15);
    assert_eq!(rt;
        sheet.token(0),
        Some(Token::Group(Group {
            delimiter: Delimiter::Brace,
            first: 1,
            count: 12,
        }))
    );
    assert_eq!(rt;
        sheet.token(1),
        Some(Token::Ident(Part { start: 1, len: 3 }))
    );
    assert_eq!(rt;
        sheet.token(2),
        Some(Token::String(Part { start: 2, len: 4 }))
    );
    assert_eq!(rt; sheet.token(15), None);
    assert!(rt; sheet.text(0).is_none() && sheet.text(3).is_none() && sheet.text(15).is_none());
    assert_eq!(rt; sheet.place(14), Some(77));
    assert_eq!(rt; sheet.place(15), None);
}
