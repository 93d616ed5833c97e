// Numbers as the bits of an f64.
use crate::build::*;
use crate::reads::*;
use scalar::float::Float;
use std::test::Fail;

const INFINITY: u64 = 0x7ff0_0000_0000_0000;

#[test]
fn numbers_are_taken_by_their_bits(rt: HostRuntime) -> Result<(), Fail> {
    let cases = [
        (integer(5), 77),
        (great_integer(INFINITY), INFINITY),
        (float(0x4029_0000_0000_0000), 0x4029_0000_0000_0000),
        (float(0), 0),
        (float(INFINITY), INFINITY),
    ];
    for (token, bits) in cases {
        check_taken(&rt, &Float, &one(token), bits, 1)?;
        check_taken(&rt, &Float, &alone(token), bits, 1)?;
        check_taken(&rt, &Float, &minus(token), bits | SIGN, 2)?;
    }
    Ok(())
}

#[test]
fn other_tokens_are_no_number(rt: HostRuntime) -> Result<(), Fail> {
    let others = [
        ident(0, 4),
        string(0, 4),
        char_literal(53),
        literal(3),
        literal(7),
        punct(b'+'),
        punct(b'-'),
        group(0, 3, 0),
    ];
    check_none(&rt, &Float, &others, 4)?;
    check_none_behind_minus(&rt, &Float, &others, 4)?;
    check_refused(&rt, &Float, &two(punct(b'+'), float(0)), (10, 1, 4))?;
    check_refused(&rt, &Float, &alone(punct(b'-')), (10, 1, 4))
}
