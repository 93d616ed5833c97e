// Characters.
use crate::build::*;
use crate::reads::*;
use scalar::char::Char;
use std::test::Fail;

#[test]
fn char_literals_are_taken(rt: HostRuntime) -> Result<(), Fail> {
    for char in ['\0', 'x', '\u{d7ff}', '\u{e000}', '\u{10ffff}'] {
        check_taken(&rt, &Char, &one(char_literal(char as u64)), char, 1)?;
    }
    let others = [
        // a name and a string of one letter, and a byte
        ident(0, 1),
        string(0, 1),
        literal(3),
        integer(120),
        float(120),
        punct(b'\''),
        group(0, 3, 0),
    ];
    check_none(&rt, &Char, &others, 5)
}
