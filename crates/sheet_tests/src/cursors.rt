// What a cursor shows of a sheet.
use crate::build::*;
use crate::kinds::*;
use sheet::sheet::Sheet;
use sheet::token::{Delimiter, Integer, Literal};
use sheet::tree::Tree;
use std::process::Abort;
use std::test::Fail;
use token_de::cursor::TokenDe;
use token_de::fault::{Fault, Wanted};

// What the body of record 0 of `all_kinds` shows, in order.
const SHOWN: [Seen<'static>; 12] = [
    Seen::Ident(b"ame"),
    Seen::String(b"text"),
    Seen::Punct('$'),
    Seen::Literal(Literal::Char('\u{10ffff}')),
    Seen::Literal(Literal::Integer(Integer {
        magnitude: Some(u64::MAX),
        bits: 1,
    })),
    Seen::Literal(Literal::Integer(Integer {
        magnitude: None,
        bits: 2,
    })),
    Seen::Literal(Literal::Float(HALF)),
    Seen::Literal(Literal::ByteString),
    Seen::Literal(Literal::CString),
    Seen::Literal(Literal::Byte),
    Seen::Literal(Literal::Other),
    Seen::Group(Delimiter::Parenthesis, 12, 13, 15),
];

// The record and its tree, as `peek` and `next` answer them.
fn view_at(found: Option<(usize, Tree)>) -> Option<(usize, Seen)> {
    found.map(|(record, tree)| (record, Seen::from(tree)))
}

// The next token of a cursor is this one: it is peeked at, passed, and then the last one passed.
fn check_next(rt: &impl Abort, cursor: &mut TokenDe, sheet: &Sheet, record: usize, want: Seen) {
    assert_eq!(rt; view_at(cursor.peek(sheet)), Some((record, want)));
    assert_eq!(rt; view_at(cursor.next(sheet)), Some((record, want)));
    assert_eq!(rt; cursor.last(sheet), Some(record));
}

// Nothing is left, and a call that finds nothing leaves the cursor where it is.
fn check_end(rt: &impl Abort, cursor: &mut TokenDe, sheet: &Sheet, last: Option<usize>) {
    let before = *cursor;
    assert!(rt; cursor.peek(sheet).is_none());
    assert!(rt; cursor.next(sheet).is_none());
    assert_eq!(rt; cursor.last(sheet), last);
    assert!(rt; *cursor == before);
}

#[test]
fn body_shows_every_kind(rt: HostRuntime) -> Result<(), Fail> {
    let records = all_kinds();
    let sheet = Sheet::new(15, &records, NAMES, STRINGS);
    let mut cursor = inside(&sheet, 0)?;
    assert_eq!(rt; cursor.last(&sheet), None);
    for (i, want) in SHOWN.into_iter().enumerate() {
        check_next(&rt, &mut cursor, &sheet, i.saturating_add(1), want);
    }
    check_end(&rt, &mut cursor, &sheet, Some(12));
    Ok(())
}

#[test]
fn groups_show_their_bodies(rt: HostRuntime) -> Result<(), Fail> {
    let records = all_kinds();
    let sheet = Sheet::new(15, &records, NAMES, STRINGS);
    let mut root = TokenDe::new();
    assert_eq!(rt; root.last(&sheet), None);
    let brace = Seen::Group(Delimiter::Brace, 0, 1, 13);
    check_next(&rt, &mut root, &sheet, 0, brace);
    check_end(&rt, &mut root, &sheet, Some(0));
    let mut inner = inside(&sheet, 12)?;
    assert_eq!(rt; inner.last(&sheet), None);
    let bracket = Seen::Group(Delimiter::Bracket, 13, 15, 15);
    check_next(&rt, &mut inner, &sheet, 13, bracket);
    let invisible = Seen::Group(Delimiter::Invisible, 14, 15, 15);
    check_next(&rt, &mut inner, &sheet, 14, invisible);
    check_end(&rt, &mut inner, &sheet, Some(14));
    check_end(&rt, &mut inside(&sheet, 13)?, &sheet, None);
    check_end(&rt, &mut inside(&sheet, 14)?, &sheet, None);
    Ok(())
}

// The other sheet has a body of one record where the run has two.
#[test]
fn sheet_without_the_run_shows_nothing(rt: HostRuntime) -> Result<(), Fail> {
    let records = [brace(1, 2), ident(0, 1), ident(1, 1)];
    let own = Sheet::new(3, &records, b"ab", b"");
    let others = [brace(1, 1), brace(2, 1), ident(0, 1)];
    let other = Sheet::new(3, &others, b"c", b"");
    let mut cursor = inside(&own, 0)?;
    check_next(&rt, &mut cursor, &own, 1, Seen::Ident(b"a"));
    check_end(&rt, &mut cursor, &other, None);
    assert!(rt; cursor.text(&other).err() == Some(Fault::Ended(Wanted::String, 0)));
    check_next(&rt, &mut cursor, &own, 2, Seen::Ident(b"b"));
    check_end(&rt, &mut cursor, &own, Some(2));
    Ok(())
}

// The other sheet has records 3 and 4 in the body of another group, among others.
#[test]
fn sheet_with_the_run_shows_its_own_tokens(rt: HostRuntime) -> Result<(), Fail> {
    let records = [
        brace(1, 2),
        brace(3, 2),
        ident(0, 1),
        ident(0, 1),
        ident(1, 1),
    ];
    let own = Sheet::new(5, &records, b"ab", b"");
    let others = [
        brace(1, 5),
        punct(b'='),
        string(0, 1),
        string(1, 1),
        string(2, 1),
        string(0, 3),
    ];
    let other = Sheet::new(6, &others, b"", b"xyz");
    let mut cursor = inside(&own, 1)?;
    check_next(&rt, &mut cursor, &other, 3, Seen::String(b"y"));
    assert_eq!(rt; cursor.last(&own), Some(3));
    check_next(&rt, &mut cursor, &other, 4, Seen::String(b"z"));
    check_end(&rt, &mut cursor, &other, Some(4));
    check_end(&rt, &mut cursor, &own, Some(4));
    Ok(())
}
