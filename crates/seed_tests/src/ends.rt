// Words behind one another, and the end of a run.
use crate::build::*;
use crate::reads::*;
use even::even::Even;
use scalar::bool::Bool;
use scalar::char::Char;
use scalar::float::Float;
use scalar::signed::Signed;
use scalar::text::{Identifier, Str};
use scalar::unit::EmptyParens;
use scalar::unsigned::Unsigned;
use sheet::sheet::Sheet;
use sheet::spot::Spot;
use std::process::Abort;
use std::test::Fail;
use token_de::cursor::TokenDe;
use token_de::custom::Custom;
use token_de::seed::Seed;

// Each seed refuses what is next by the same number at the same record.
fn check_all(
    rt: &impl Abort,
    cursor: &mut TokenDe,
    sheet: &Sheet,
    number: u8,
    record: usize,
) -> Result<(), Fail> {
    check_stays(rt, cursor, sheet, &Bool, (number, record, 1))?;
    check_stays(rt, cursor, sheet, &Signed::I64, (number, record, 2))?;
    check_stays(rt, cursor, sheet, &Unsigned::U64, (number, record, 3))?;
    check_stays(rt, cursor, sheet, &Float, (number, record, 4))?;
    check_stays(rt, cursor, sheet, &Char, (number, record, 5))?;
    check_stays(rt, cursor, sheet, &Str, (number, record, 6))?;
    check_stays(rt, cursor, sheet, &Identifier, (number, record, 7))?;
    check_stays(rt, cursor, sheet, &EmptyParens, (number, record, 8))?;
    check_stays(
        rt,
        cursor,
        sheet,
        &Custom { seed: Even },
        (number, record, 3),
    )
}

// At the end of a run, in an empty body, at the root and behind it, and in a sheet that does not have the run.
#[test]
fn no_seed_takes_what_is_not_there(rt: HostRuntime) -> Result<(), Fail> {
    let records = one(ident(0, 4));
    let sheet = sheet_of(&records);
    let mut cursor = start(&rt, &sheet, &records)?;
    assert!(rt; cursor.next(&sheet).is_some() && cursor.next(&sheet).is_some());
    check_all(&rt, &mut cursor, &sheet, 11, 2)?;
    let mut root = TokenDe::new();
    check_all(&rt, &mut root, &sheet, 10, 0)?;
    assert!(rt; root.next(&sheet).is_some());
    check_all(&rt, &mut root, &sheet, 11, 0)?;
    let records = [group(1, 1, 0)];
    let empty = sheet_of(&records);
    check_all(&rt, &mut start(&rt, &empty, &records)?, &empty, 11, 0)?;
    check_all(&rt, &mut cursor, &empty, 11, 0)
}

// `- 5 true 4 4 'x' true ()`, each word read where the one before it ended.
#[test]
fn words_follow_each_other(rt: HostRuntime) -> Result<(), Fail> {
    let records = [
        group(1, 1, 8),
        punct(b'-'),
        integer(5),
        ident(0, 4),
        integer(4),
        float(9),
        char_literal(120),
        string(0, 4),
        group(0, 9, 0),
    ];
    let sheet = sheet_of(&records);
    let mut cursor = start(&rt, &sheet, &records)?;
    assert_eq!(rt; cursor.read(&sheet, &Signed::I8)?, -5);
    assert_eq!(rt; cursor.read(&sheet, &Bool)?, true);
    check_stays(
        &rt,
        &mut cursor,
        &sheet,
        &Unsigned { low: 5, high: 9 },
        (10, 4, 3),
    )?;
    assert_eq!(rt; cursor.read(&sheet, &Custom { seed: Even })?, 4);
    assert_eq!(rt; cursor.read(&sheet, &Float)?, 9);
    assert_eq!(rt; cursor.read(&sheet, &Char)?, 'x');
    check_stays(&rt, &mut cursor, &sheet, &Bool, (10, 7, 1))?;
    assert_eq!(rt; cursor.read(&sheet, &Str)?.len, 4);
    cursor.read(&sheet, &EmptyParens)?;
    check_all(&rt, &mut cursor, &sheet, 11, 8)
}

// `- 5` as a whole, and cut off behind the `-`: a part of a run ends where it is cut, and its end is named by the
// last token that it is told.
#[test]
fn a_part_of_a_run_ends_where_it_is_cut(rt: HostRuntime) -> Result<(), Fail> {
    let records = [group(1, 1, 2), punct(b'-'), integer(5)];
    let sheet = sheet_of(&records);
    let whole = sheet.input(Spot::within(body_of(&rt, &sheet, &records)?));
    assert_eq!(rt; whole.take(9).rest(), whole.rest());
    assert_eq!(rt; Signed::I8.read(&whole.take(2))?.value, -5);
    let cut = whole.take(1);
    assert_eq!(rt; Signed::I8.read(&cut).err().map(refusal), Some((10, 1, 2)));
    let end = cut.past(1);
    assert_eq!(rt; Signed::I8.read(&end).err().map(refusal), Some((11, 1, 2)));
    let told = end.with_last(Some(2));
    assert_eq!(rt; Signed::I8.read(&told).err().map(refusal), Some((11, 2, 2)));
    let untold = whole.take(0).with_last(None);
    assert_eq!(rt;
        Signed::I8.read(&untold).err().map(refusal),
        Some((11, 0, 2))
    );
    Ok(())
}
