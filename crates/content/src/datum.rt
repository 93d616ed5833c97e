use scalar::text::TextPart;

// The group at this record, and how many elements or entries it has.
#[derive(Clone, Copy, PartialEq, Eq, Debug)]
pub struct Counted {
    pub group: usize,
    pub count: usize,
}

// A value of content. A float is the bits of an f64; a negative integer is `Signed`, every other `Unsigned`.
#[derive(Clone, Copy, PartialEq, Eq, Debug)]
pub enum Datum {
    Bool(bool),
    Text(TextPart),
    Char(char),
    Unsigned(u64),
    Signed(i64),
    Float(u64),
    Empty,
    List(Counted),
    Map(Counted),
}
