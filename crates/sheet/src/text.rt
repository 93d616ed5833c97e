// The two pools of text: names are those of identifiers, strings those of string literals.
#[derive(Clone, Copy, PartialEq, Eq, Debug)]
pub enum Pool {
    Names,
    Strings,
}

// A text: the pool that it is a part of, its first byte there, and its bytes.
#[derive(Clone, Copy, PartialEq, Eq, Debug)]
pub struct Text<'a> {
    pub pool: Pool,
    pub start: usize,
    pub bytes: &'a [u8],
}
