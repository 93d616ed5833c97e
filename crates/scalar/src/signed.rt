ghost use Rattle.std.specs.Prelude.{FitsSigned};
ghost use Rattle.std.specs.Int.{w64};
ghost use Rattle.std.specs.Option.{SomeIff};
ghost use Rattle.scalar.specs.Signeds.{signed_value, signed_worth, signed_read, SignedWord};
ghost use Rattle.token_de.specs.declared.fault.Wanted.TheVariants as wanted;
ghost use Rattle.scalar.specs.NumbersLemmas.{number_lawful};
ghost use Rattle.scalar.specs.SignedWordsLemmas.{signed_exact};

use crate::integer::magnitude_of;
use crate::number::{Numeral, read_number};
use sheet::input::Input;
use sheet::token::Token;
use token_de::fault::{Fault, Wanted};
use token_de::seed::{Seed, Taken, Words};

// A signed integer between two inclusive ends. Where the ends are in the wrong order it has no words.
#[derive(Clone, Copy)]
pub struct Signed {
    pub low: i64,
    pub high: i64,
}

impl Signed {
    pub const I8: Signed = Signed {
        low: i8::MIN as i64,
        high: i8::MAX as i64,
    };

    pub const I16: Signed = Signed {
        low: i16::MIN as i64,
        high: i16::MAX as i64,
    };

    pub const I32: Signed = Signed {
        low: i32::MIN as i64,
        high: i32::MAX as i64,
    };

    pub const I64: Signed = Signed {
        low: i64::MIN,
        high: i64::MAX,
    };
}

// The integer of this sign and magnitude, if it fits 64 bits.
fn signed_of(negative: bool, magnitude: u64) -> Option<i64>
    ensures { SomeIff result (FitsSigned w64 (signed_value negative magnitude)) (signed_value negative magnitude) }
{
    if negative {
        0i64.checked_sub_unsigned(magnitude)
    } else {
        i64::try_from(magnitude).ok()
    }
}

impl Numeral for Signed {
    type Value = i64;

    ghost worth = { signed_worth };

    fn value_of(&self, negative: bool, token: Token) -> Option<i64> {
        let Signed { low, high } = *self;
        let magnitude = magnitude_of(token)?;
        let value = signed_of(negative, magnitude)?;
        (low..=high).contains(&value).then_some(value)
    }
}

impl Seed for Signed {
    type Value = i64;

    ghost meaning = { signed_read };

    ghost lawful = { λ s. number_lawful wanted.Signed (signed_worth s) };

    fn read(&self, input: &Input) -> Result<Taken<i64>, Fault> {
        read_number(self, Wanted::Signed, &input.sheet(), input.rest())
    }
}

impl Words for Signed {
    ghost word = { SignedWord };

    ghost exact = { signed_exact };
}
