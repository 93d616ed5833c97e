// Content, which takes any value, and ignored, which passes it over.
use crate::build::*;
use crate::reads::*;
use content::any::AnyContent;
use content::datum::{Counted, Datum};
use content::ignored::IgnoredAny;
use layout::record::Record;
use scalar::text::TextPart;
use sheet::text::Pool;
use std::process::Abort;
use std::test::Fail;

fn text_in(pool: Pool, start: usize, len: usize) -> Datum {
    Datum::Text(TextPart { pool, start, len })
}

fn list_of(group: usize, count: usize) -> Datum {
    Datum::List(Counted { group, count })
}

fn map_of(group: usize, count: usize) -> Datum {
    Datum::Map(Counted { group, count })
}

// Content takes these records up to `last`, with this value, and ignored takes the same.
fn check_both(rt: &impl Abort, records: &[Record], want: Datum, last: usize) -> Result<(), Fail> {
    check_taken(rt, &AnyContent, records, want, last)?;
    check_taken(rt, &IgnoredAny, records, (), last)
}

// Both refuse these records.
fn check_neither(rt: &impl Abort, records: &[Record], want: Refusal) -> Result<(), Fail> {
    check_refused(rt, &AnyContent, records, want)?;
    check_refused(rt, &IgnoredAny, records, want)
}

#[test]
fn one_token_is_content(rt: HostRuntime) -> Result<(), Fail> {
    check_both(&rt, &one(ident(0, 4)), Datum::Bool(true), 1)?;
    check_both(&rt, &one(ident(4, 5)), Datum::Bool(false), 1)?;
    check_both(&rt, &one(ident(9, 6)), text_in(Pool::Names, 9, 6), 1)?;
    check_both(&rt, &one(ident(15, 4)), text_in(Pool::Names, 15, 4), 1)?;
    check_both(&rt, &one(ident(0, 0)), text_in(Pool::Names, 0, 0), 1)?;
    check_both(&rt, &one(string(0, 4)), text_in(Pool::Strings, 0, 4), 1)?;
    check_both(
        &rt,
        &one(char_literal(0x10ffff)),
        Datum::Char('\u{10ffff}'),
        1,
    )?;
    check_both(&rt, &one(integer(u64::MAX)), Datum::Unsigned(u64::MAX), 1)?;
    check_both(&rt, &one(float(5)), Datum::Float(5), 1)?;
    check_both(&rt, &minus(integer(0)), Datum::Signed(0), 2)?;
    check_both(&rt, &minus(integer(SIGN)), Datum::Signed(i64::MIN), 2)?;
    check_both(&rt, &minus(float(5)), Datum::Float(5 | SIGN), 2)
}

#[test]
fn groups_are_content(rt: HostRuntime) -> Result<(), Fail> {
    let one = integer(1);
    let is = punct(b'=');
    let comma = punct(b',');
    check_both(&rt, &[group(1, 1, 1), group(0, 2, 0)], Datum::Empty, 1)?;
    check_both(&rt, &[group(1, 1, 1), group(2, 2, 0)], list_of(1, 0), 1)?;
    check_both(&rt, &[group(1, 1, 1), group(1, 2, 0)], map_of(1, 0), 1)?;
    let list = [group(1, 1, 1), group(0, 2, 4), one, comma, one, comma];
    check_both(&rt, &list, list_of(1, 2), 1)?;
    let map = [
        group(1, 1, 1),
        group(1, 2, 7),
        one,
        is,
        one,
        comma,
        one,
        is,
        one,
    ];
    check_both(&rt, &map, map_of(1, 2), 1)?;
    check_both(
        &rt,
        &[group(1, 1, 1), group(3, 2, 1), one],
        Datum::Unsigned(1),
        1,
    )?;
    let negative = [group(1, 1, 1), group(3, 2, 2), punct(b'-'), one];
    check_both(&rt, &negative, Datum::Signed(-1), 1)
}

#[test]
fn other_tokens_are_no_content(rt: HostRuntime) -> Result<(), Fail> {
    let signs = [punct(b'+'), punct(b'='), punct(b',')];
    for sign in signs {
        check_neither(&rt, &two(sign, integer(1)), (10, 1, 15))?;
    }
    for sub in [1, 2, 3, 7] {
        check_neither(&rt, &one(literal(sub)), (16, 1, 0))?;
        check_neither(&rt, &minus(literal(sub)), (10, 1, 15))?;
    }
    check_neither(&rt, &one(great_integer(0)), (10, 1, 16))?;
    check_neither(&rt, &minus(great_integer(0)), (10, 1, 16))?;
    check_neither(&rt, &minus(integer(SIGN + 1)), (10, 1, 16))?;
    check_neither(&rt, &minus(ident(0, 4)), (10, 1, 15))?;
    check_neither(&rt, &alone(punct(b'-')), (10, 1, 15))?;
    check_neither(&rt, &[group(1, 1, 0)], (11, 0, 15))
}

#[test]
fn groups_of_another_shape_are_no_content(rt: HostRuntime) -> Result<(), Fail> {
    let one = integer(1);
    let is = punct(b'=');
    let comma = punct(b',');
    check_neither(&rt, &[group(1, 1, 1), group(3, 2, 0)], (12, 1, 0))?;
    check_neither(
        &rt,
        &[group(1, 1, 1), group(3, 2, 2), one, comma],
        (15, 3, 0),
    )?;
    check_neither(
        &rt,
        &[group(1, 1, 1), group(2, 2, 3), one, comma, comma],
        (10, 4, 15),
    )?;
    check_neither(&rt, &[group(1, 1, 1), group(2, 2, 2), one, one], (14, 3, 0))?;
    check_neither(&rt, &[group(1, 1, 1), group(1, 2, 2), one, one], (13, 3, 0))?;
    check_neither(&rt, &[group(1, 1, 1), group(1, 2, 1), one], (13, 2, 0))?;
    check_neither(&rt, &[group(1, 1, 1), group(1, 2, 2), one, is], (11, 3, 15))?;
    check_neither(
        &rt,
        &[group(1, 1, 1), group(1, 2, 4), one, is, one, one],
        (14, 5, 0),
    )?;
    check_neither(
        &rt,
        &[group(1, 1, 1), group(2, 2, 1), group(2, 3, 1), is],
        (10, 3, 15),
    )
}

// Record 0 and 32 brackets, each in the one before, the last one empty: the deepest sheet there is.
fn deepest() -> [Record; 33] {
    let mut records = [group(2, 33, 0); 33];
    for (record, first) in records.iter_mut().zip(1..33u32) {
        *record = group(2, first, 1);
    }
    records[0] = group(1, 1, 1);
    records
}

#[test]
fn content_reaches_the_deepest_level(rt: HostRuntime) -> Result<(), Fail> {
    check_both(&rt, &deepest(), list_of(1, 1), 1)?;
    let mut less_deep = deepest();
    less_deep[31] = group(2, 32, 1);
    less_deep[32] = integer(1);
    check_both(&rt, &less_deep, list_of(1, 1), 1)?;
    let mut wrong = deepest();
    wrong[32] = punct(b'=');
    check_neither(&rt, &wrong, (10, 32, 15))
}
