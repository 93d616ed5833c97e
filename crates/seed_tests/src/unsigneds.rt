// Unsigned integers.
use crate::build::*;
use crate::reads::*;
use scalar::unsigned::Unsigned;
use std::process::Abort;
use std::test::Fail;

// The ends of a seed are taken, and the next number above them is refused.
fn check_ends(rt: &impl Abort, seed: Unsigned, low: u64, high: u64) -> Result<(), Fail> {
    check_taken(rt, &seed, &one(integer(low)), low, 1)?;
    check_taken(rt, &seed, &one(integer(high)), high, 1)?;
    check_none(rt, &seed, &[integer(high.saturating_add(1))], 3)
}

#[test]
fn integers_from_0_to_the_ends_are_taken(rt: HostRuntime) -> Result<(), Fail> {
    check_ends(&rt, Unsigned::U8, 0, 255)?;
    check_ends(&rt, Unsigned::U16, 0, 65535)?;
    check_ends(&rt, Unsigned::U32, 0, 4294967295)?;
    check_taken(&rt, &Unsigned::U64, &one(integer(0)), 0, 1)?;
    check_taken(&rt, &Unsigned::U64, &alone(integer(u64::MAX)), u64::MAX, 1)?;
    check_ends(&rt, Unsigned { low: 3, high: 9 }, 3, 9)?;
    check_none(&rt, &Unsigned { low: 3, high: 9 }, &[integer(2)], 3)?;
    let near = [integer(4), integer(5), integer(6)];
    check_none(&rt, &Unsigned { low: 6, high: 4 }, &near, 3)?;
    let others = [
        great_integer(0),
        float(0),
        char_literal(53),
        ident(0, 4),
        string(0, 4),
        punct(b'+'),
        group(0, 3, 0),
    ];
    check_none(&rt, &Unsigned::U64, &others, 3)?;
    check_none_behind_minus(&rt, &Unsigned::U64, &[integer(0), integer(1)], 3)
}
