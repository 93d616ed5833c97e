ghost use Rattle.std.specs.Prelude.{◌≡◌, true, if◌then◌else◌, Some, None};
ghost use Rattle.layout.specs.Rules.{is_punct, is_scalar};
ghost use Rattle.sheet.specs.Tokens.{scalar_char, delimiter_of, literal_of, part_of, token_of};

pub use layout::kind::Delimiter;
use layout::kind::{Kind, LiteralKind};
use layout::record::Record;
use layout::rules::is_punct;

// A punctuation mark, one of `= < > ! ~ + - * / % ^ & | @ . , ; : # $ ? '`.
#[derive(Clone, Copy, PartialEq, Eq, Debug)]
pub struct Punct {
    code: u8,
}

// A part of a pool of text: its first byte and how many.
#[derive(Clone, Copy, PartialEq, Eq, Debug)]
pub struct Part {
    pub start: usize,
    pub len: usize,
}

// An integer: its magnitude, unless that exceeds 64 bits, and the pattern of the nearest f64.
#[derive(Clone, Copy, PartialEq, Eq, Debug)]
pub struct Integer {
    pub magnitude: Option<u64>,
    pub bits: u64,
}

// A literal that is no string. A float is the pattern of the nearest f64; the text of the last four is not kept.
#[derive(Clone, Copy, PartialEq, Eq, Debug)]
pub enum Literal {
    Char(char),
    Integer(Integer),
    Float(u64),
    ByteString,
    CString,
    Byte,
    Other,
}

// A group: what encloses it, the first record of its body and how many records that has.
#[derive(Clone, Copy, PartialEq, Eq, Debug)]
pub struct Group {
    pub delimiter: Delimiter,
    pub first: usize,
    pub count: usize,
}

// What a record means. The text of an identifier is a part of the names, that of a string a part of the strings.
#[derive(Clone, Copy, PartialEq, Eq, Debug)]
pub enum Token {
    Ident(Part),
    String(Part),
    Punct(Punct),
    Literal(Literal),
    Group(Group),
}

impl Punct {
    pub const EQUALS: Punct = Punct { code: b'=' };

    pub const COMMA: Punct = Punct { code: b',' };

    pub const MINUS: Punct = Punct { code: b'-' };

    // The punct of an ASCII code, if it is one. `new` and `as_char` are the names of the Rust original.
    pub fn new(code: u8) -> Option<Punct>
        ensures { result ≡ (if is_punct code then Some (record { code = code }) else None) }
    {
        is_punct(code).then_some(Punct { code })
    }

    pub fn as_char(self) -> char
        ensures { result ≡ self.code }
    {
        self.code as char
    }
}

// A number that stands for no delimiter has a meaning too, so this is more than its `TryFrom`.
#[inline(always)]
fn delimiter_of(sub: u8) -> Delimiter
    ensures { result ≡ delimiter_of sub }
{
    Delimiter::try_from(sub).unwrap_or(Delimiter::Invisible)
}

// The part of a pool that a record's text is.
impl From<&Record> for Part {
    ghost from_gives = { λ r part. part ≡ part_of r.now };

    fn from(record: &Record) -> Part {
        Part {
            start: record.a as usize,
            len: record.b as usize,
        }
    }
}

// A `From` could not ask for a scalar value.
fn char_of(value: u64) -> char
    requires { is_scalar value ≡ true }
    ensures { result ≡ value }
{
    char::from_u32(value as u32).unwrap()
}

// The literal of a record whose kind is that of literals, and which is no string.
#[inline(always)]
fn literal_of(record: &Record) -> Literal
    requires { scalar_char «record».now }
    ensures { result ≡ literal_of «record».now }
{
    match LiteralKind::try_from(record.sub) {
        Ok(LiteralKind::ByteString) => Literal::ByteString,
        Ok(LiteralKind::CString) => Literal::CString,
        Ok(LiteralKind::Byte) => Literal::Byte,
        Ok(LiteralKind::Char) => Literal::Char(char_of(record.value)),
        Ok(LiteralKind::Integer) => Literal::Integer(Integer {
            magnitude: (record.mark == 0).then_some(record.value),
            bits: record.bits,
        }),
        Ok(LiteralKind::Float) => Literal::Float(record.bits),
        _ => Literal::Other,
    }
}

// What a record of a sheet means. A `From` could not ask that the record keeps the rules.
#[inline(always)]
pub(crate) fn token_of(record: &Record) -> Token
    requires { «record».now.kind ≡ 2 → scalar_char «record».now }
    ensures { result ≡ token_of «record».now }
{
    match Kind::try_from(record.kind) {
        Ok(Kind::Ident) => Token::Ident(Part::from(record)),
        Ok(Kind::Punct) => Token::Punct(Punct { code: record.sub }),
        Ok(Kind::Literal) => match LiteralKind::try_from(record.sub) {
            Ok(LiteralKind::String) => Token::String(Part::from(record)),
            _ => Token::Literal(literal_of(record)),
        },
        _ => Token::Group(Group {
            delimiter: delimiter_of(record.sub),
            first: record.a as usize,
            count: record.b as usize,
        }),
    }
}
