// The unit value.
use crate::build::*;
use crate::reads::*;
use scalar::unit::EmptyParens;
use std::test::Fail;

#[test]
fn empty_parentheses_are_taken(rt: HostRuntime) -> Result<(), Fail> {
    check_taken(&rt, &EmptyParens, &one(group(0, 3, 0)), (), 1)?;
    let filled = [group(1, 1, 2), group(0, 3, 1), punct(b','), integer(1)];
    check_refused(&rt, &EmptyParens, &filled, (10, 1, 8))?;
    let others = [
        // a brace, a bracket and an invisible group
        group(1, 3, 0),
        group(2, 3, 0),
        group(3, 3, 0),
        ident(0, 0),
        string(0, 0),
        integer(0),
        punct(b'-'),
    ];
    check_none(&rt, &EmptyParens, &others, 8)
}
