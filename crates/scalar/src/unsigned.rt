ghost use Rattle.scalar.specs.Unsigneds.{unsigned_read, UnsignedWord, unsigned_of};
ghost use Rattle.token_de.specs.declared.fault.Wanted.TheVariants as wanted;
ghost use Rattle.token_de.proofs.Trees.{single_lawful};
ghost use Rattle.scalar.specs.UnsignedWordsLemmas.{unsigned_exact};

use crate::integer::magnitude_of;
use sheet::input::Input;
use token_de::fault::{Fault, Wanted};
use token_de::seed::{Seed, Taken, Words, first_token};

// An unsigned integer between two inclusive ends. Where the ends are in the wrong order it has no words. Unlike
// `Signed`, it is one token: a `-` is refused, whatever is behind it. One generic struct would share the two ends alone.
#[derive(Clone, Copy)]
pub struct Unsigned {
    pub low: u64,
    pub high: u64,
}

impl Unsigned {
    pub const U8: Unsigned = Unsigned {
        low: 0,
        high: u8::MAX as u64,
    };

    pub const U16: Unsigned = Unsigned {
        low: 0,
        high: u16::MAX as u64,
    };

    pub const U32: Unsigned = Unsigned {
        low: 0,
        high: u32::MAX as u64,
    };

    pub const U64: Unsigned = Unsigned {
        low: 0,
        high: u64::MAX,
    };
}

impl Seed for Unsigned {
    type Value = u64;

    ghost meaning = { unsigned_read };

    ghost lawful = { λ s. single_lawful wanted.Unsigned (unsigned_of s) };

    fn read(&self, input: &Input) -> Result<Taken<u64>, Fault> {
        let token = first_token(input, Wanted::Unsigned)?;
        match magnitude_of(token) {
            Some(value) if (self.low..=self.high).contains(&value) => Ok(Taken::one(value)),
            _ => Err(Fault::wrong(Wanted::Unsigned, input)),
        }
    }
}

impl Words for Unsigned {
    ghost word = { UnsignedWord };

    ghost exact = { unsigned_exact };
}
