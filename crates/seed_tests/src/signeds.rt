// Signed integers.
use crate::build::*;
use crate::reads::*;
use scalar::signed::Signed;
use std::process::Abort;
use std::test::Fail;

// The magnitude of the least i64.
const LEAST: u64 = 9223372036854775808;

// The ends of a seed, `low` as a magnitude behind a `-`, are taken, and the next number past each is refused.
fn check_ends(rt: &impl Abort, seed: Signed, low: u64, high: u64) -> Result<(), Fail> {
    check_taken(rt, &seed, &minus(integer(low)), seed.low, 2)?;
    check_taken(rt, &seed, &one(integer(high)), seed.high, 1)?;
    check_none_behind_minus(rt, &seed, &[integer(low.saturating_add(1))], 2)?;
    check_none(rt, &seed, &[integer(high.saturating_add(1))], 2)
}

#[test]
fn integers_between_the_ends_are_taken(rt: HostRuntime) -> Result<(), Fail> {
    check_ends(&rt, Signed::I8, 128, 127)?;
    check_ends(&rt, Signed::I16, 32768, 32767)?;
    check_ends(&rt, Signed::I32, 2147483648, 2147483647)?;
    check_ends(&rt, Signed::I64, LEAST, LEAST - 1)?;
    check_ends(&rt, Signed { low: -3, high: 4 }, 3, 4)?;
    check_taken(&rt, &Signed::I64, &minus(integer(LEAST)), i64::MIN, 2)?;
    check_taken(&rt, &Signed::I8, &minus(integer(0)), 0, 2)?;
    check_taken(&rt, &Signed::I8, &one(integer(0)), 0, 1)?;
    check_taken(&rt, &Signed::I8, &alone(integer(5)), 5, 1)?;
    let backward = Signed { low: 1, high: -1 };
    let near = [integer(0), integer(1), integer(2)];
    check_none(&rt, &backward, &near, 2)?;
    check_none_behind_minus(&rt, &backward, &near, 2)
}

#[test]
fn other_tokens_are_no_signed_integer(rt: HostRuntime) -> Result<(), Fail> {
    let others = [
        great_integer(0),
        integer(LEAST + 1),
        integer(u64::MAX),
        float(0),
        char_literal(53),
        ident(0, 4),
        string(0, 4),
        punct(b'+'),
        punct(b'-'),
        group(0, 3, 0),
    ];
    check_none(&rt, &Signed::I64, &others, 2)?;
    check_none_behind_minus(&rt, &Signed::I64, &others, 2)?;
    check_refused(&rt, &Signed::I64, &two(punct(b'+'), integer(1)), (10, 1, 2))?;
    check_refused(&rt, &Signed::I64, &alone(punct(b'-')), (10, 1, 2))
}
