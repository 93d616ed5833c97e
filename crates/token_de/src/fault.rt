ghost use Rattle.std.specs.Prelude.{◌≡◌};
ghost use Rattle.std.specs.Option.{unwrap_or};
ghost use Rattle.token_de.specs.declared.fault.Fault.TheVariants.{Wrong, Ended};
ghost use Rattle.token_de.specs.Faults.{number, at, detail, wanted_number, data_number};

use sheet::input::Input;
use std::fmt;

// What a read wanted of a token.
#[derive(Clone, Copy, PartialEq, Eq, Debug)]
pub enum Wanted {
    Bool,
    Signed,
    Unsigned,
    Float,
    Char,
    String,
    Identifier,
    Unit,
    Content,
    ContentInteger,
}

// What is wrong with data whose tokens fit.
#[derive(Clone, Copy, PartialEq, Eq, Debug)]
pub enum DataFault {
    // a customer's seed says so, with a number from 100 to 255
    Custom(u8),
}

// Why a read is refused, and at which record.
#[derive(Clone, Copy, PartialEq, Eq, Debug)]
pub enum Fault {
    // this token is not what was wanted
    Wrong(Wanted, usize),
    // no token is left after this one
    Ended(Wanted, usize),
    // this group has no marks and holds nothing
    Empty(usize),
    // no `=` is behind a key: this token is there, or this key was the last
    NoEquals(usize),
    // neither a comma nor the end is behind an element: this token is
    NoSeparator(usize),
    // this token is behind the one word of a group with no marks
    Leftover(usize),
    // this literal has no value
    Unreadable(usize),
    // the data are wrong; it arises at record 0
    Data(DataFault, usize),
}

impl Wanted {
    // Its number, which is the detail of a refusal.
    pub fn number(&self) -> u8
        ensures { result ≡ wanted_number self.now }
    {
        match self {
            Wanted::Bool => 1,
            Wanted::Signed => 2,
            Wanted::Unsigned => 3,
            Wanted::Float => 4,
            Wanted::Char => 5,
            Wanted::String => 6,
            Wanted::Identifier => 7,
            Wanted::Unit => 8,
            Wanted::Content => 15,
            Wanted::ContentInteger => 16,
        }
    }
}

impl DataFault {
    // Its number, which is the detail of a refusal.
    pub fn number(&self) -> u8
        ensures { result ≡ data_number self.now }
    {
        match self {
            DataFault::Custom(number) => *number,
        }
    }
}

impl Fault {
    // The next token is not what was wanted.
    #[inline(always)]
    pub fn wrong(wanted: Wanted, input: &Input) -> Fault
        ensures { result ≡ Wrong wanted input.now.rest.from }
    {
        Fault::Wrong(wanted, input.rest().from)
    }

    // No token is left: this names the last one passed, else record 0.
    #[inline(always)]
    pub fn ended(wanted: Wanted, input: &Input) -> Fault
        ensures { result ≡ Ended wanted (unwrap_or input.now.rest.last 0) }
    {
        Fault::Ended(wanted, input.rest().last.unwrap_or(0))
    }

    // Its number among the refusals, as users see it.
    pub fn number(&self) -> u8
        ensures { result ≡ number self.now }
    {
        match self {
            Fault::Wrong(_, _) => 10,
            Fault::Ended(_, _) => 11,
            Fault::Empty(_) => 12,
            Fault::NoEquals(_) => 13,
            Fault::NoSeparator(_) => 14,
            Fault::Leftover(_) => 15,
            Fault::Unreadable(_) => 16,
            Fault::Data(_, _) => 17,
        }
    }

    // The record that it names.
    pub fn record(&self) -> usize
        ensures { result ≡ at self.now }
    {
        match self {
            Fault::Wrong(_, record) | Fault::Ended(_, record) | Fault::Data(_, record) => *record,
            Fault::Empty(record) | Fault::NoEquals(record) | Fault::NoSeparator(record) => *record,
            Fault::Leftover(record) | Fault::Unreadable(record) => *record,
        }
    }

    // The number of what was wanted, or of what is wrong with the data; 0 for the others.
    pub fn detail(&self) -> u8
        ensures { result ≡ detail self.now }
    {
        match self {
            Fault::Wrong(wanted, _) | Fault::Ended(wanted, _) => wanted.number(),
            Fault::Data(fault, _) => fault.number(),
            _ => 0,
        }
    }
}

impl fmt::Display for Wanted {
    fn fmt<W: fmt::Write>(&self, f: &mut fmt::Formatter<W>) -> fmt::Result {
        match self {
            Wanted::Bool => write!(f, "true or false"),
            Wanted::Signed => write!(f, "a signed integer in range"),
            Wanted::Unsigned => write!(f, "an unsigned integer in range"),
            Wanted::Float => write!(f, "a number"),
            Wanted::Char => write!(f, "a character"),
            Wanted::String => write!(f, "a string"),
            Wanted::Identifier => write!(f, "an identifier"),
            Wanted::Unit => write!(f, "an empty pair of parentheses"),
            Wanted::Content => write!(f, "a value"),
            Wanted::ContentInteger => write!(f, "an integer of 64 bits"),
        }
    }
}

impl fmt::Display for DataFault {
    fn fmt<W: fmt::Write>(&self, f: &mut fmt::Formatter<W>) -> fmt::Result {
        match self {
            DataFault::Custom(number) => write!(f, "the value is not allowed (reason {number})"),
        }
    }
}

impl fmt::Display for Fault {
    fn fmt<W: fmt::Write>(&self, f: &mut fmt::Formatter<W>) -> fmt::Result {
        match self {
            Fault::Wrong(wanted, record) => write!(
                f,
                "expected {wanted}, but found another token at record {record}"
            ),
            Fault::Ended(wanted, record) => write!(
                f,
                "expected {wanted} after record {record}, but nothing is left"
            ),
            Fault::Empty(record) => write!(f, "the group at record {record} holds no value"),
            Fault::NoEquals(record) => write!(f, "expected `=` behind a key at record {record}"),
            Fault::NoSeparator(record) => write!(
                f,
                "expected a comma or the end, but found another token at record {record}"
            ),
            Fault::Leftover(record) => write!(
                f,
                "expected the end of a group, but found another token at record {record}"
            ),
            Fault::Unreadable(record) => write!(f, "the literal at record {record} has no value"),
            Fault::Data(fault, record) => write!(f, "{fault} at record {record}"),
        }
    }
}
