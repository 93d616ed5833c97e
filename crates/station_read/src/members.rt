ghost use Rattle.std.specs.Prelude.{◌<◌};
ghost use Rattle.sheet.specs.Sheets.{held};
ghost use Rattle.station_read.specs.Left.{left};

use crate::failure::Failure;
use crate::show::{Escaped, Quoted, QuotedChar};
use content::any::AnyContent;
use content::datum::Datum;
use scalar::bool::Bool;
use scalar::char::Char;
use scalar::float::Float;
use scalar::signed::Signed;
use scalar::text::{Identifier, Str, TextPart};
use scalar::unsigned::Unsigned;
use sheet::sheet::Sheet;
use sheet::text::Pool;
use sheet::token::{Literal, Part, Punct};
use sheet::tree::Tree;
use std::fmt;
use std::num::f64_from_bits_with_nan;
use token_de::cursor::TokenDe;
use token_de::fault::Fault;

// A member, with its value if that is one value.
#[derive(Clone, Copy)]
struct Member {
    name: TextPart,
    value: Option<Datum>,
}

// The list has not the shape of members at this record.
#[derive(Clone, Copy)]
struct Misshapen {
    record: usize,
}

impl From<Fault> for Misshapen {
    fn from(fault: Fault) -> Misshapen {
        Misshapen {
            record: fault.record(),
        }
    }
}

impl fmt::Display for Misshapen {
    fn fmt<W: fmt::Write>(&self, f: &mut fmt::Formatter<W>) -> fmt::Result {
        write!(f, "no member at record {}", self.record)
    }
}

// What was read of a sheet, beside the sheet that its texts lie in.
#[derive(Clone, Copy)]
struct InSheet<'a, T> {
    sheet: Sheet<'a>,
    read: T,
}

// A name as it is, and a string in quotes.
impl fmt::Display for InSheet<'_, TextPart> {
    fn fmt<W: fmt::Write>(&self, f: &mut fmt::Formatter<W>) -> fmt::Result {
        let TextPart { pool, start, len } = self.read;
        let bytes = self.sheet.bytes(pool, Part { start, len });
        match pool {
            Pool::Names => write!(f, "{}", Escaped(bytes)),
            Pool::Strings => write!(f, "{}", Quoted(bytes)),
        }
    }
}

impl fmt::Display for InSheet<'_, Datum> {
    fn fmt<W: fmt::Write>(&self, f: &mut fmt::Formatter<W>) -> fmt::Result {
        let sheet = self.sheet;
        match self.read {
            Datum::Bool(truth) => write!(f, "{truth}"),
            Datum::Unsigned(number) => write!(f, "{number}"),
            Datum::Signed(number) => write!(f, "{number}"),
            Datum::Float(bits) => write!(f, "{:?}", f64_from_bits_with_nan(bits)),
            Datum::Char(char) => write!(f, "{}", QuotedChar(char)),
            Datum::Text(read) => write!(f, "{}", InSheet { sheet, read }),
            Datum::Empty => write!(f, "()"),
            Datum::List(counted) => write!(f, "list of {}", counted.count),
            Datum::Map(counted) => write!(f, "map of {}", counted.count),
        }
    }
}

impl fmt::Display for InSheet<'_, Member> {
    fn fmt<W: fmt::Write>(&self, f: &mut fmt::Formatter<W>) -> fmt::Result {
        let sheet = self.sheet;
        let Member { name, value } = self.read;
        let name = InSheet { sheet, read: name };
        match value {
            Some(read) => write!(f, "{name} = {}", InSheet { sheet, read }),
            None => write!(f, "{name}: not one value"),
        }
    }
}

// A truth value, or any other name. A refused read leaves the cursor, so the next seed is tried.
fn read_name(cursor: &mut TokenDe, sheet: &Sheet) -> Result<Datum, Fault> {
    cursor
        .read(sheet, &Bool)
        .map(Datum::Bool)
        .or_else(|_| cursor.read(sheet, &Str).map(Datum::Text))
}

// An integer that fits no width is read as a float.
fn read_number(cursor: &mut TokenDe, sheet: &Sheet) -> Result<Datum, Fault> {
    cursor
        .read(sheet, &Unsigned::U64)
        .map(Datum::Unsigned)
        .or_else(|_| cursor.read(sheet, &Signed::I64).map(Datum::Signed))
        .or_else(|_| cursor.read(sheet, &Float).map(Datum::Float))
}

// The value that begins with this tree, through the seed that fits it: a group by content.
fn read_fitting(cursor: &mut TokenDe, sheet: &Sheet, first: Tree) -> Result<Datum, Fault> {
    match first {
        Tree::Ident(_) => read_name(cursor, sheet),
        Tree::String(_) => cursor.read(sheet, &Str).map(Datum::Text),
        Tree::Literal(Literal::Char(_)) => cursor.read(sheet, &Char).map(Datum::Char),
        Tree::Punct(_) | Tree::Literal(_) => read_number(cursor, sheet),
        Tree::Group(_, _) => cursor.read(sheet, &AnyContent),
    }
}

// The one value that stands before a comma or the end.
fn read_value(mut cursor: TokenDe, sheet: &Sheet, first: Tree) -> Option<Datum> {
    let value = read_fitting(&mut cursor, sheet, first).ok()?;
    match cursor.peek(sheet) {
        Some((_, tree)) if tree != Tree::Punct(Punct::COMMA) => None,
        _ => Some(value),
    }
}

// The list ends where more of a member was to come.
fn cut_short(cursor: &TokenDe, sheet: &Sheet) -> Misshapen {
    Misshapen {
        record: cursor.last(sheet).unwrap_or(0),
    }
}

fn pass_equals(cursor: &mut TokenDe, sheet: &Sheet) -> Result<(), Misshapen> {
    match cursor.next(sheet) {
        Some((_, tree)) if tree == Tree::Punct(Punct::EQUALS) => Ok(()),
        Some((record, _)) => Err(Misshapen { record }),
        None => Err(cut_short(cursor, sheet)),
    }
}

// The tree that a value begins with.
fn value_start<'a>(cursor: &TokenDe, sheet: &Sheet<'a>) -> Result<Tree<'a>, Misshapen> {
    match cursor.peek(sheet) {
        Some((record, tree)) if tree == Tree::Punct(Punct::COMMA) => Err(Misshapen { record }),
        Some((_, tree)) => Ok(tree),
        None => Err(cut_short(cursor, sheet)),
    }
}

// The member that begins at the cursor: a name, `=`, a value, and then a comma or the end.
fn read_member(mut cursor: TokenDe, sheet: &Sheet) -> Result<Member, Misshapen> {
    let name = cursor.read(sheet, &Identifier)?;
    pass_equals(&mut cursor, sheet)?;
    let first = value_start(&cursor, sheet)?;
    let value = read_value(cursor, sheet, first);
    Ok(Member { name, value })
}

// Passes the tokens up to the next comma, and the comma.
#[tactic(auto, using(crate::proofs::Left::some_passed, crate::proofs::Left::none_passed))]
fn pass_comma(cursor: &mut TokenDe, sheet: &Sheet)
    ensures { 0 < left (held sheet.now) cursor.old.at → left (held sheet.now) cursor.new.at < left (held sheet.now) cursor.old.at }
{
    while let Some((_, tree)) = cursor.next(sheet) {
        if tree == Tree::Punct(Punct::COMMA) {
            break;
        }
    }
}

// Prints a line for each member of record 0's body, up to the first place that has not the shape of members.
pub fn print_members(rt: &HostRuntime, sheet: &Sheet) -> Result<(), Failure> {
    println!(rt; "members:")?;
    let Some(Tree::Group(_, body)) = sheet.tree(0) else {
        return Ok(());
    };
    let mut cursor = TokenDe::within(body);
    while cursor.peek(sheet).is_some() {
        match read_member(cursor, sheet) {
            Ok(read) => {
                let member = InSheet {
                    sheet: *sheet,
                    read,
                };
                println!(rt; "  {member}")?;
            }
            Err(misshapen) => {
                println!(rt; "  {misshapen}")?;
                break;
            }
        }
        pass_comma(&mut cursor, sheet);
    }
    Ok(())
}
