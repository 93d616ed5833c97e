ghost use Rattle.layout.specs.Kinds.{KindOf, LiteralKindOf, DelimiterOf};

// What sort of token a record is.
#[derive(Clone, Copy, PartialEq, Eq, Debug)]
pub enum Kind {
    Ident,
    Punct,
    Literal,
    Group,
}

// Which literal.
#[derive(Clone, Copy, PartialEq, Eq, Debug)]
pub enum LiteralKind {
    String,
    ByteString,
    CString,
    Byte,
    Char,
    Integer,
    Float,
    Other,
}

// What encloses a group's body; an invisible group has no marks in the source.
#[derive(Clone, Copy, PartialEq, Eq, Debug)]
pub enum Delimiter {
    Parenthesis,
    Brace,
    Bracket,
    Invisible,
}

// A number that stands for none of them.
#[derive(Clone, Copy, PartialEq, Eq, Debug)]
pub struct UnknownNumber(pub u8);

impl TryFrom<u8> for Kind {
    type Error = UnknownNumber;

    ghost try_from_gives = { KindOf };

    #[inline(always)]
    fn try_from(number: u8) -> Result<Self, UnknownNumber> {
        match number {
            0 => Ok(Kind::Ident),
            1 => Ok(Kind::Punct),
            2 => Ok(Kind::Literal),
            3 => Ok(Kind::Group),
            _ => Err(UnknownNumber(number)),
        }
    }
}

impl TryFrom<u8> for LiteralKind {
    type Error = UnknownNumber;

    ghost try_from_gives = { LiteralKindOf };

    #[inline(always)]
    fn try_from(number: u8) -> Result<Self, UnknownNumber> {
        match number {
            0 => Ok(LiteralKind::String),
            1 => Ok(LiteralKind::ByteString),
            2 => Ok(LiteralKind::CString),
            3 => Ok(LiteralKind::Byte),
            4 => Ok(LiteralKind::Char),
            5 => Ok(LiteralKind::Integer),
            6 => Ok(LiteralKind::Float),
            7 => Ok(LiteralKind::Other),
            _ => Err(UnknownNumber(number)),
        }
    }
}

impl TryFrom<u8> for Delimiter {
    type Error = UnknownNumber;

    ghost try_from_gives = { DelimiterOf };

    #[inline(always)]
    fn try_from(number: u8) -> Result<Self, UnknownNumber> {
        match number {
            0 => Ok(Delimiter::Parenthesis),
            1 => Ok(Delimiter::Brace),
            2 => Ok(Delimiter::Bracket),
            3 => Ok(Delimiter::Invisible),
            _ => Err(UnknownNumber(number)),
        }
    }
}
