// A tree as tests compare it, the cursor in a body, and a sheet with every kind of token.
use crate::build::*;
use layout::record::Record;
use sheet::sheet::Sheet;
use sheet::token::{Delimiter, Literal};
use sheet::tree::Tree;
use std::test::Fail;
use token_de::cursor::TokenDe;

// A tree with the bounds of a group's body as numbers: its group, its first record and the one behind its last.
#[derive(Clone, Copy, PartialEq, Debug)]
pub enum Seen<'a> {
    Ident(&'a [u8]),
    String(&'a [u8]),
    Punct(char),
    Literal(Literal),
    Group(Delimiter, usize, usize, usize),
}

impl<'a> From<Tree<'a>> for Seen<'a> {
    fn from(tree: Tree<'a>) -> Seen<'a> {
        match tree {
            Tree::Ident(name) => Seen::Ident(name),
            Tree::String(text) => Seen::String(text),
            Tree::Punct(punct) => Seen::Punct(punct.as_char()),
            Tree::Literal(literal) => Seen::Literal(literal),
            Tree::Group(delimiter, body) => Seen::Group(
                delimiter,
                body.parent(),
                body.from(),
                body.to(),
            ),
        }
    }
}

// A cursor at the start of the body of a record.
pub fn inside(sheet: &Sheet, record: usize) -> Result<TokenDe, Fail> {
    match sheet.tree(record) {
        Some(Tree::Group(_, body)) => Ok(TokenDe::within(body)),
        _ => Err(Fail::new("no group")),
    }
}

pub const NAMES: &[u8] = b"name";

pub const STRINGS: &[u8] = b"a text";

// The bits of 12.5.
pub const HALF: u64 = 0x4029_0000_0000_0000;

// A brace round one token of each kind: 15 records, of which the last two are the body of a parenthesis.
pub fn all_kinds() -> [Record; 15] {
    [
        brace(1, 12),
        ident(1, 3),
        string(2, 4),
        punct(b'$'),
        char_literal(0x10ffff),
        integer(0, u64::MAX, 1),
        integer(1, 7, 2),
        float(HALF),
        literal(1),
        literal(2),
        literal(3),
        literal(7),
        group(0, 13, 2),
        group(2, 15, 0),
        Record {
            place: 77,
            ..group(3, 15, 0)
        },
    ]
}
