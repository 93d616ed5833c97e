// Truth values.
use crate::build::*;
use crate::reads::*;
use scalar::bool::Bool;
use std::test::Fail;

#[test]
fn true_and_false_are_taken(rt: HostRuntime) -> Result<(), Fail> {
    check_taken(&rt, &Bool, &one(ident(0, 4)), true, 1)?;
    check_taken(&rt, &Bool, &alone(ident(4, 5)), false, 1)?;
    let others = [
        // tru, truef, r#true, True and the empty name
        ident(0, 3),
        ident(0, 5),
        ident(9, 6),
        ident(15, 4),
        ident(0, 0),
        // the string literal "true"
        string(0, 4),
        integer(1),
        punct(b'-'),
        group(0, 3, 0),
    ];
    check_none(&rt, &Bool, &others, 1)
}
