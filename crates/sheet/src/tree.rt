use crate::spot::Body;
use crate::token::{Delimiter, Literal, Punct};

// A tree with its parts: a name or a string as bytes of the sheet's pools, a group as the bounds of its body.
#[derive(Clone, Copy, PartialEq, Eq, Debug)]
pub enum Tree<'a> {
    Ident(&'a [u8]),
    String(&'a [u8]),
    Punct(Punct),
    Literal(Literal),
    Group(Delimiter, Body),
}
