// A member list, call by call.
use crate::build::*;
use crate::reads::*;
use access::map_access::{KeyTurn, NextKey, ValueTurn};
use access::seq_access::Elements;
use entries::entries::read_whole;
use even::even::Even;
use layout::record::Record;
use scalar::char::Char;
use scalar::signed::Signed;
use scalar::text::Identifier;
use sheet::sheet::Sheet;
use sheet::spot::Body;
use std::process::Abort;
use std::test::Fail;
use token_de::fault::Fault;

// The identifier of one letter of the names.
fn name(letter: u32) -> Record {
    ident(letter, 1)
}

// The brace of record 0 round so many records.
fn root(count: u32) -> Record {
    group(1, 1, count)
}

// A call's answer; its refusal comes after so many reads.
fn after<A, T: Drop>(reads: usize, answer: Result<A, (T, Fault)>) -> Result<A, (usize, Refusal)> {
    answer.map_err(|(_, fault)| (reads, refusal(fault)))
}

// How many entries of names and signed integers a body has, or how many come before which refusal.
fn count_entries(sheet: &Sheet, body: Body) -> Result<usize, (usize, Refusal)> {
    let mut turn = KeyTurn::within(body);
    // more reads than a body of these tests has
    for read in 0..9usize {
        let due = match after(read, turn.next_key_seed(sheet, &Identifier))? {
            NextKey::Key(_, due) => due,
            NextKey::None(last) => {
                after(read, last.finish(sheet))?;
                return Ok(read);
            }
        };
        let (_, next) = after(read, due.next_value_seed(sheet, &Signed::I64))?;
        turn = next;
    }
    Err((9, (0, 0, 0)))
}

fn check_entries(
    rt: &impl Abort,
    records: &[Record],
    want: Result<usize, (usize, Refusal)>,
) -> Result<(), Fail> {
    let sheet = sheet_of(records);
    assert_eq!(rt; count_entries(&sheet, body_of(rt, &sheet, records)?), want);
    Ok(())
}

#[test]
fn entries_end_at_a_comma_or_the_end(rt: HostRuntime) -> Result<(), Fail> {
    let a = name(0);
    let b = name(1);
    let is = punct(b'=');
    let comma = punct(b',');
    let one = integer(1);
    check_entries(&rt, &[root(0)], Ok(0))?;
    check_entries(&rt, &[root(3), a, is, one], Ok(1))?;
    check_entries(&rt, &[root(7), a, is, one, comma, b, is, one], Ok(2))?;
    check_entries(&rt, &[root(8), a, is, one, comma, a, is, one, comma], Ok(2))
}

#[test]
fn entries_of_another_shape_are_refused(rt: HostRuntime) -> Result<(), Fail> {
    let a = name(0);
    let is = punct(b'=');
    let comma = punct(b',');
    let one = integer(1);
    check_entries(
        &rt,
        &[root(5), a, is, one, comma, comma],
        Err((1, (10, 5, 7))),
    )?;
    check_entries(
        &rt,
        &[root(6), a, is, one, a, is, one],
        Err((0, (14, 4, 0))),
    )?;
    check_entries(&rt, &[root(2), a, is], Err((0, (11, 2, 2))))?;
    check_entries(&rt, &[root(2), a, one], Err((0, (13, 2, 0))))?;
    check_entries(&rt, &[root(1), a], Err((0, (13, 1, 0))))?;
    check_entries(&rt, &[root(3), one, is, one], Err((0, (10, 1, 7))))
}

// The turn to read the first value of a body.
fn first_value(sheet: &Sheet, body: Body) -> Result<ValueTurn, Fail> {
    match KeyTurn::within(body).next_key_seed(sheet, &Identifier) {
        Ok(NextKey::Key(_, due)) => Ok(due),
        _ => Err(Fail::new("no key")),
    }
}

#[test]
fn a_refused_turn_comes_back(rt: HostRuntime) -> Result<(), Fail> {
    let records = [root(3), name(0), punct(b'='), integer(4)];
    let sheet = sheet_of(&records);
    let body = body_of(&rt, &sheet, &records)?;
    let Err((turn, fault)) = KeyTurn::within(body).finish(&sheet) else {
        return Err(Fail::new("finished"));
    };
    assert_eq!(rt; refusal(fault), (15, 1, 0));
    let Ok(NextKey::Key(_, due)) = turn.next_key_seed(&sheet, &Identifier) else {
        return Err(Fail::new("no key"));
    };
    let Err((again, fault)) = due.next_value_seed(&sheet, &Char) else {
        return Err(Fail::new("a char"));
    };
    assert_eq!(rt; refusal(fault), (10, 3, 5));
    let Ok((value, last)) = again.next_value_seed(&sheet, &Signed::I64) else {
        return Err(Fail::new("no value"));
    };
    assert_eq!(rt; value, 4);
    assert!(rt; last.finish(&sheet).is_ok());
    Ok(())
}

#[test]
fn a_sheet_without_the_run_has_no_rest(rt: HostRuntime) -> Result<(), Fail> {
    let records = [root(3), name(0), punct(b'='), integer(4)];
    let sheet = sheet_of(&records);
    let body = body_of(&rt, &sheet, &records)?;
    let other = [root(0)];
    let empty = sheet_of(&other);
    let Ok(NextKey::None(turn)) = KeyTurn::within(body).next_key_seed(&empty, &Identifier) else {
        return Err(Fail::new("a key"));
    };
    assert!(rt; turn.finish(&empty).is_ok());
    let Err((due, fault)) = first_value(&sheet, body)?.next_value_seed(&empty, &Signed::I64) else {
        return Err(Fail::new("a value"));
    };
    assert_eq!(rt; refusal(fault), (11, 0, 2));
    assert!(rt; due.next_value_seed(&sheet, &Signed::I64).is_ok());
    Ok(())
}

#[test]
fn a_value_names_its_data_fault(rt: HostRuntime) -> Result<(), Fail> {
    let records = [root(3), name(0), punct(b'='), integer(3)];
    let sheet = sheet_of(&records);
    let due = first_value(&sheet, body_of(&rt, &sheet, &records)?)?;
    let Err((_, fault)) = due.next_value_seed(&sheet, &Even) else {
        return Err(Fail::new("even"));
    };
    assert_eq!(rt; refusal(fault), (17, 3, 100));
    Ok(())
}

// How many signed integers a body has as a list, or how many come before which refusal.
fn count_elements(sheet: &Sheet, body: Body) -> Result<usize, (usize, Refusal)> {
    let mut left = Elements::within(body);
    for read in 0..9usize {
        left = match after(read, left.next_element_seed(sheet, &Signed::I64))? {
            (Some(_), next) => next,
            (None, _) => return Ok(read),
        };
    }
    Err((9, (0, 0, 0)))
}

fn check_elements(
    rt: &impl Abort,
    records: &[Record],
    want: Result<usize, (usize, Refusal)>,
) -> Result<(), Fail> {
    let sheet = sheet_of(records);
    assert_eq!(rt; count_elements(&sheet, body_of(rt, &sheet, records)?), want);
    Ok(())
}

#[test]
fn elements_end_at_a_comma_or_the_end(rt: HostRuntime) -> Result<(), Fail> {
    let comma = punct(b',');
    let one = integer(1);
    check_elements(&rt, &[root(0)], Ok(0))?;
    check_elements(&rt, &[root(3), one, comma, one], Ok(2))?;
    check_elements(&rt, &[root(4), one, comma, one, comma], Ok(2))?;
    check_elements(&rt, &[root(3), one, comma, comma], Err((1, (10, 3, 2))))?;
    check_elements(&rt, &[root(2), one, one], Err((0, (14, 2, 0))))?;
    check_elements(&rt, &[root(2), one, punct(b'=')], Err((0, (14, 2, 0))))
}

fn check_whole(rt: &impl Abort, records: &[Record], want: bool) -> Result<(), Fail> {
    let sheet = sheet_of(records);
    assert_eq!(rt; read_whole(&sheet, body_of(rt, &sheet, records)?), want);
    Ok(())
}

#[test]
fn a_caller_reads_the_whole_list_or_stops(rt: HostRuntime) -> Result<(), Fail> {
    let a = name(0);
    let is = punct(b'=');
    let comma = punct(b',');
    let text = string(5, 4);
    check_whole(&rt, &[root(0)], true)?;
    check_whole(&rt, &[root(7), a, is, text, comma, a, is, a], true)?;
    check_whole(&rt, &[root(8), a, is, a, comma, a, is, text, comma], true)?;
    check_whole(&rt, &[root(5), a, is, a, comma, comma], false)?;
    check_whole(&rt, &[root(6), a, is, a, a, is, a], false)?;
    check_whole(&rt, &[root(2), a, is], false)?;
    check_whole(&rt, &[root(3), a, is, integer(1)], false)
}
