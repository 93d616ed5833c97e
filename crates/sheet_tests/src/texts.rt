// The text of a token, and where it is refused.
use crate::build::*;
use crate::kinds::*;
use sheet::sheet::Sheet;
use sheet::text::Pool;
use std::process::Abort;
use std::test::Fail;
use token_de::cursor::TokenDe;
use token_de::fault::{Fault, Wanted};

fn check_text(
    rt: &impl Abort,
    cursor: &mut TokenDe,
    sheet: &Sheet,
    pool: Pool,
    start: usize,
    bytes: &[u8],
) -> Result<(), Fail> {
    let text = cursor.text(sheet)?;
    assert_eq!(rt; text.pool, pool);
    assert_eq!(rt; text.start, start);
    assert_eq!(rt; text.bytes, bytes);
    Ok(())
}

// The text is refused, and the cursor stays.
fn check_no_text(
    rt: &impl Abort,
    cursor: &mut TokenDe,
    sheet: &Sheet,
    number: u8,
    record: usize,
) -> Result<(), Fail> {
    let before = *cursor;
    let Err(fault) = cursor.text(sheet) else {
        return Err(Fail::new("a text"));
    };
    assert_eq!(rt; fault.number(), number);
    assert_eq!(rt; fault.detail(), 6);
    assert_eq!(rt; fault.record(), record);
    assert!(rt; *cursor == before);
    Ok(())
}

#[test]
fn names_and_strings_are_texts(rt: HostRuntime) -> Result<(), Fail> {
    let records = [
        brace(1, 4),
        ident(1, 3),
        string(2, 4),
        ident(4, 0),
        string(6, 0),
    ];
    let sheet = Sheet::new(5, &records, NAMES, STRINGS);
    let mut cursor = inside(&sheet, 0)?;
    check_text(&rt, &mut cursor, &sheet, Pool::Names, 1, b"ame")?;
    assert_eq!(rt; cursor.last(&sheet), Some(1));
    check_text(&rt, &mut cursor, &sheet, Pool::Strings, 2, b"text")?;
    assert_eq!(rt; cursor.last(&sheet), Some(2));
    check_text(&rt, &mut cursor, &sheet, Pool::Names, 4, b"")?;
    check_text(&rt, &mut cursor, &sheet, Pool::Strings, 6, b"")?;
    check_no_text(&rt, &mut cursor, &sheet, 11, 4)
}

// Records 3 to 12 are one of each other kind; the first call is at the root.
#[test]
fn other_tokens_are_no_text(rt: HostRuntime) -> Result<(), Fail> {
    let records = all_kinds();
    let sheet = Sheet::new(15, &records, NAMES, STRINGS);
    check_no_text(&rt, &mut TokenDe::new(), &sheet, 10, 0)?;
    let mut cursor = inside(&sheet, 0)?;
    let _ = cursor.next(&sheet);
    let _ = cursor.next(&sheet);
    for record in 3..=12usize {
        check_no_text(&rt, &mut cursor, &sheet, 10, record)?;
        assert!(rt; cursor.next(&sheet).is_some());
    }
    check_no_text(&rt, &mut cursor, &sheet, 11, 12)
}

#[test]
fn no_text_is_left_in_an_empty_body(rt: HostRuntime) -> Result<(), Fail> {
    let records = [brace(1, 0)];
    let sheet = Sheet::new(1, &records, b"", b"");
    check_no_text(&rt, &mut inside(&sheet, 0)?, &sheet, 11, 0)?;
    let mut root = TokenDe::new();
    assert!(rt; root.next(&sheet).is_some());
    check_no_text(&rt, &mut root, &sheet, 11, 0)?;
    assert!(rt; root.text(&sheet).err() == Some(Fault::Ended(Wanted::String, 0)));
    Ok(())
}
