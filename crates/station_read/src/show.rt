use sheet::spot::Body;
use sheet::token::{Delimiter, Literal};
use sheet::tree::Tree;
use std::fmt;
use std::num::f64_from_bits_with_nan;

// The line of a record: its number, its place in the source text and its parts, indented by its depth.
#[derive(Drop)]
pub struct TreeLine<'a> {
    pub depth: usize,
    pub record: usize,
    pub place: u32,
    pub tree: Tree<'a>,
}

// Bytes of a text; what is not printable ASCII is escaped.
#[derive(Clone, Copy)]
pub struct Escaped<'a>(pub &'a [u8]);

// A text in quotes.
#[derive(Clone, Copy)]
pub struct Quoted<'a>(pub &'a [u8]);

// A character in quotes.
#[derive(Clone, Copy)]
pub struct QuotedChar(pub char);

fn show_byte<W: fmt::Write>(byte: u8, f: &mut fmt::Formatter<W>) -> fmt::Result {
    let char = byte as char;
    match byte {
        b'"' | b'\\' => write!(f, "\\{char}"),
        b' '..=b'~' => write!(f, "{char}"),
        _ => write!(f, "\\x{byte:02x}"),
    }
}

impl fmt::Display for Escaped<'_> {
    fn fmt<W: fmt::Write>(&self, f: &mut fmt::Formatter<W>) -> fmt::Result {
        for byte in self.0 {
            show_byte(*byte, f)?;
        }
        Ok(())
    }
}

impl fmt::Display for Quoted<'_> {
    fn fmt<W: fmt::Write>(&self, f: &mut fmt::Formatter<W>) -> fmt::Result {
        write!(f, "\"{}\"", Escaped(self.0))
    }
}

impl fmt::Display for QuotedChar {
    fn fmt<W: fmt::Write>(&self, f: &mut fmt::Formatter<W>) -> fmt::Result {
        let char = self.0;
        let code = char as u32;
        match char {
            '\'' | '\\' => write!(f, "'\\{char}'"),
            ' '..='~' => write!(f, "'{char}'"),
            _ => write!(f, "'\\u{{{code:x}}}'"),
        }
    }
}

// A type of another crate that is shown at one place is a function, and no wrapper with `Display`.
fn show_literal<W: fmt::Write>(literal: Literal, f: &mut fmt::Formatter<W>) -> fmt::Result {
    match literal {
        Literal::Char(char) => write!(f, "char {}", QuotedChar(char)),
        Literal::Integer(integer) => match integer.magnitude {
            Some(magnitude) => write!(f, "integer {magnitude}"),
            None => write!(f, "integer over 64 bits"),
        },
        Literal::Float(bits) => {
            let value = f64_from_bits_with_nan(bits);
            write!(f, "float 0x{bits:016x} {value:?}")
        }
        Literal::ByteString => write!(f, "byte string"),
        Literal::CString => write!(f, "C string"),
        Literal::Byte => write!(f, "byte"),
        Literal::Other => write!(f, "other literal"),
    }
}

fn brackets(delimiter: Delimiter) -> &'static str {
    match delimiter {
        Delimiter::Parenthesis => "( )",
        Delimiter::Brace => "{ }",
        Delimiter::Bracket => "[ ]",
        Delimiter::Invisible => "invisible",
    }
}

fn show_group<W: fmt::Write>(
    delimiter: Delimiter,
    body: Body,
    f: &mut fmt::Formatter<W>,
) -> fmt::Result {
    let marks = brackets(delimiter);
    let first = body.from();
    let end = body.to();
    if first < end {
        let last = end - 1;
        write!(f, "group {marks} records {first} to {last}")
    } else {
        write!(f, "group {marks} empty")
    }
}

fn show_tree<W: fmt::Write>(tree: Tree, f: &mut fmt::Formatter<W>) -> fmt::Result {
    match tree {
        Tree::Ident(name) => write!(f, "identifier {}", Escaped(name)),
        Tree::String(text) => write!(f, "string {}", Quoted(text)),
        Tree::Punct(punct) => write!(f, "punct {}", punct.as_char()),
        Tree::Literal(literal) => show_literal(literal, f),
        Tree::Group(delimiter, body) => show_group(delimiter, body, f),
    }
}

impl fmt::Display for TreeLine<'_> {
    fn fmt<W: fmt::Write>(&self, f: &mut fmt::Formatter<W>) -> fmt::Result {
        for _ in 0..self.depth {
            write!(f, "  ")?;
        }
        write!(f, "{} at {}: ", self.record, self.place)?;
        show_tree(self.tree, f)
    }
}
