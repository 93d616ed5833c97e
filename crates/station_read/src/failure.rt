use layout::fault::LoadFault;
use std::alloc::{AllocError, AllocFailed};
use std::{fmt, io};

// Why the program ends with status 1.
#[derive(Debug, Drop)]
pub enum Failure {
    // the arguments are not one path
    Usage,
    // the arguments cannot be taken, as one that is not UTF-8
    Arguments(io::Error),
    // the file of this path cannot be read
    Unreadable(String, io::Error),
    // the file is no sheet
    Refused(LoadFault),
    // so many records were walked, and so many are there
    Unwalked(usize, usize),
    // a line cannot be printed
    Unprinted(io::Error),
    // no memory is left
    NoMemory,
}

impl From<io::Error> for Failure {
    fn from(error: io::Error) -> Failure {
        Failure::Unprinted(error)
    }
}

impl From<LoadFault> for Failure {
    fn from(fault: LoadFault) -> Failure {
        Failure::Refused(fault)
    }
}

impl From<AllocError> for Failure {
    fn from(_error: AllocError) -> Failure {
        Failure::NoMemory
    }
}

impl<T: Drop> From<AllocFailed<T>> for Failure {
    fn from(_back: AllocFailed<T>) -> Failure {
        Failure::NoMemory
    }
}

impl fmt::Display for Failure {
    fn fmt<W: fmt::Write>(&self, f: &mut fmt::Formatter<W>) -> fmt::Result {
        match self {
            Failure::Usage => write!(f, "usage: station_read FILE"),
            Failure::Arguments(error) => write!(f, "cannot take the arguments: {error}"),
            Failure::Unreadable(path, error) => write!(f, "cannot read {path}: {error}"),
            Failure::Refused(fault) => {
                let number = fault.number();
                let record = fault.record();
                write!(f, "refused: {number} at record {record}: {fault}")
            }
            Failure::Unwalked(walked, count) => write!(
                f,
                "only {walked} of {count} records walked"
            ),
            Failure::Unprinted(error) => write!(f, "cannot print: {error}"),
            Failure::NoMemory => write!(f, "no memory is left"),
        }
    }
}
