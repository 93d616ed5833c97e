ghost use Rattle.std.specs.Prelude.{◌≡◌};

use layout::fault::LoadFault;
use std::fmt;
use token_de::fault::Fault;

// Why a file is not read: the load refuses it, or what is read at record 0 does.
#[derive(Clone, Copy, PartialEq, Eq, Debug)]
pub enum FileError {
    Load(LoadFault),
    Read(Fault),
}

impl From<LoadFault> for FileError {
    ghost use Rattle.whole.specs.declared.error.FileError.TheVariants.{Load};

    ghost from_gives = { λ fault error. error ≡ Load fault };

    fn from(fault: LoadFault) -> FileError {
        FileError::Load(fault)
    }
}

impl From<Fault> for FileError {
    ghost use Rattle.whole.specs.declared.error.FileError.TheVariants.{Read};

    ghost from_gives = { λ fault error. error ≡ Read fault };

    fn from(fault: Fault) -> FileError {
        FileError::Read(fault)
    }
}

impl fmt::Display for FileError {
    fn fmt<W: fmt::Write>(&self, f: &mut fmt::Formatter<W>) -> fmt::Result {
        match self {
            FileError::Load(fault) => write!(f, "{fault}"),
            FileError::Read(fault) => write!(f, "{fault}"),
        }
    }
}
