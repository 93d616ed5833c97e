ghost use Rattle.std.specs.Prelude.{◌≡◌};
ghost use Rattle.layout.specs.Faults.{number, at};

use std::fmt;

// Why a file is refused.
#[derive(Clone, Copy, PartialEq, Eq, Debug)]
pub enum LoadFault {
    // under 12 bytes
    Short,
    // a number of the head out of range
    OutOfRange,
    // the length is not what the head says
    WrongLength,
    // this record is off the line of its kind
    OffLine(usize),
    // this record is not where a body wants it, or its body is not where it should be
    Misplaced(usize),
    // this record is too deep
    TooDeep(usize),
    // the record table has fewer places than the file has records
    SmallTable,
}

impl LoadFault {
    // Its number among the refusals, as users see it.
    pub fn number(&self) -> u8
        ensures { result ≡ number self.now }
    {
        match self {
            LoadFault::Short => 1,
            LoadFault::OutOfRange => 2,
            LoadFault::WrongLength => 3,
            LoadFault::OffLine(_) => 4,
            LoadFault::Misplaced(_) => 5,
            LoadFault::TooDeep(_) => 6,
            LoadFault::SmallTable => 7,
        }
    }

    // The record that it names: record 0 where it is the file as a whole.
    pub fn record(&self) -> usize
        ensures { result ≡ at self.now }
    {
        match self {
            LoadFault::OffLine(record)
            | LoadFault::Misplaced(record)
            | LoadFault::TooDeep(record) => *record,
            _ => 0,
        }
    }
}

impl fmt::Display for LoadFault {
    fn fmt<W: fmt::Write>(&self, f: &mut fmt::Formatter<W>) -> fmt::Result {
        match self {
            LoadFault::Short => write!(f, "the file has under 12 bytes, too few for its head"),
            LoadFault::OutOfRange => write!(
                f,
                "the head gives a size out of range: records 1 to 1024, names and strings up to 8192 bytes each"
            ),
            LoadFault::WrongLength => write!(f, "the file is not as long as its head says"),
            LoadFault::OffLine(_) => write!(
                f,
                "the record has an unknown kind, or a field that its kind does not allow"
            ),
            LoadFault::Misplaced(_) => write!(
                f,
                "the record lies in no body, or its own body is out of place"
            ),
            LoadFault::TooDeep(_) => write!(f, "the record is nested deeper than 32 levels"),
            LoadFault::SmallTable => write!(
                f,
                "the record table has fewer places than the file has records"
            ),
        }
    }
}
