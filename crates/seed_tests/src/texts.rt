// Identifiers and texts.
use crate::build::*;
use crate::reads::*;
use scalar::text::{Identifier, Str, TextPart};
use sheet::text::Pool;
use std::test::Fail;

// A part of each pool, and a text without bytes at the end of it; NAMES has 19 bytes, STRINGS has 9.
#[test]
fn names_and_strings_are_taken_by_their_place(rt: HostRuntime) -> Result<(), Fail> {
    for (start, len) in [(0u32, 4u32), (5, 4), (3, 0), (9, 0)] {
        let name = TextPart {
            pool: Pool::Names,
            start: start as usize,
            len: len as usize,
        };
        let text = TextPart {
            pool: Pool::Strings,
            ..name
        };
        check_taken(&rt, &Identifier, &one(ident(start, len)), name, 1)?;
        check_taken(&rt, &Str, &one(ident(start, len)), name, 1)?;
        check_taken(&rt, &Str, &one(string(start, len)), text, 1)?;
        check_none(&rt, &Identifier, &[string(start, len)], 7)?;
    }
    let others = [
        char_literal(120),
        integer(5),
        float(0),
        literal(1),
        literal(2),
        punct(b'\''),
        group(0, 3, 0),
    ];
    check_none(&rt, &Str, &others, 6)?;
    check_none(&rt, &Identifier, &others, 7)
}
