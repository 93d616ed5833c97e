// Reads through one seed at the start of record 0's body, and checks the answer and where the cursor stands.
use crate::build::*;
use layout::record::Record;
use sheet::sheet::Sheet;
use sheet::spot::Body;
use sheet::tree::Tree;
use std::fmt::Debug;
use std::process::Abort;
use std::test::Fail;
use token_de::cursor::TokenDe;
use token_de::fault::Fault;
use token_de::seed::Words;

// The number, the record and the detail of a refusal.
pub type Refusal = (u8, usize, u8);

// The sheet of these records.
pub fn sheet_of<'a>(records: &'a [Record]) -> Sheet<'a> {
    Sheet::new(records.len(), records, NAMES, STRINGS)
}

// The body of record 0, where the sheet has all of the records.
pub fn body_of(rt: &impl Abort, sheet: &Sheet, records: &[Record]) -> Result<Body, Fail> {
    assert_eq!(rt; sheet.count(), records.len(), "the records break a rule");
    match sheet.tree(0) {
        Some(Tree::Group(_, body)) => Ok(body),
        _ => Err(Fail::new("no group")),
    }
}

// The number, the record and the detail of a fault.
pub fn refusal(fault: Fault) -> Refusal {
    (fault.number(), fault.record(), fault.detail())
}

// A cursor at the start of the body of record 0.
pub fn start(rt: &impl Abort, sheet: &Sheet, records: &[Record]) -> Result<TokenDe, Fail> {
    Ok(TokenDe::within(body_of(rt, sheet, records)?))
}

// How the seed refuses what is next; none where it takes it. A refusal leaves the cursor.
fn refusal_of<S: Words>(
    rt: &impl Abort,
    cursor: &mut TokenDe,
    sheet: &Sheet,
    seed: &S,
) -> Option<Refusal> {
    let before = *cursor;
    let fault = cursor.read(sheet, seed).err()?;
    assert!(rt; *cursor == before, "the cursor moved");
    Some(refusal(fault))
}

// The seed refuses what is next, and the cursor stays.
pub fn check_stays<S: Words>(
    rt: &impl Abort,
    cursor: &mut TokenDe,
    sheet: &Sheet,
    seed: &S,
    want: Refusal,
) -> Result<(), Fail> {
    assert_eq!(rt; refusal_of(rt, cursor, sheet, seed), Some(want));
    Ok(())
}

// The seed refuses these records.
pub fn check_refused<S: Words>(
    rt: &impl Abort,
    seed: &S,
    records: &[Record],
    want: Refusal,
) -> Result<(), Fail> {
    let sheet = sheet_of(records);
    let mut cursor = start(rt, &sheet, records)?;
    assert_eq!(rt;
        refusal_of(rt, &mut cursor, &sheet, seed),
        Some(want),
        "of {records:?}"
    );
    Ok(())
}

// The seed refuses the records round each of these tokens: 10 at record 1.
fn check_each<S: Words, F: Fn(Record) -> [Record; 3]>(
    rt: &impl Abort,
    seed: &S,
    tokens: &[Record],
    detail: u8,
    around: F,
) -> Result<(), Fail>
    requires { F.IsAlwaysCallable around }
{
    for token in tokens {
        check_refused(rt, seed, &around(*token), (10, 1, detail))?;
    }
    Ok(())
}

// The seed refuses each of these tokens before a comma: 10 at the token.
pub fn check_none<S: Words>(
    rt: &impl Abort,
    seed: &S,
    tokens: &[Record],
    detail: u8,
) -> Result<(), Fail> {
    check_each(rt, seed, tokens, detail, one)
}

// The seed refuses each of these tokens behind a `-`: 10 at the `-`.
pub fn check_none_behind_minus<S: Words>(
    rt: &impl Abort,
    seed: &S,
    tokens: &[Record],
    detail: u8,
) -> Result<(), Fail> {
    check_each(rt, seed, tokens, detail, minus)
}

// The seed takes a word of this value, and `last` is the word's last record.
pub fn check_taken<S: Words>(
    rt: &impl Abort,
    seed: &S,
    records: &[Record],
    want: S::Value,
    last: usize,
) -> Result<(), Fail>
where
    S::Value: PartialEq + Debug,
{
    let sheet = sheet_of(records);
    let mut cursor = start(rt, &sheet, records)?;
    let value = cursor.read(&sheet, seed)?;
    assert_eq!(rt; value, want, "of {records:?}");
    assert_eq!(rt; cursor.last(&sheet), Some(last), "in {records:?}");
    Ok(())
}
