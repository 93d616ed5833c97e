ghost use Rattle.std.specs.Prelude.{◌≡◌, true};
ghost use Rattle.scalar.specs.Floats.{bits_of, signed_bits, float_worth, float_read, FloatWord};
ghost use Rattle.token_de.specs.declared.fault.Wanted.TheVariants as wanted;
ghost use Rattle.scalar.specs.NumbersLemmas.{number_lawful};
ghost use Rattle.scalar.specs.FloatWordsLemmas.{float_exact};

use crate::number::{Numeral, read_number};
use sheet::input::Input;
use sheet::token::{Literal, Token};
use token_de::fault::{Fault, Wanted};
use token_de::seed::{Seed, Taken, Words};

// A number as the bits of an f64: an integer or a float literal, whatever its size. A `-` sets the sign, bit 63.
#[derive(Clone, Copy)]
pub struct Float;

// The bit of an f64 that says that it is negative.
const SIGN: u64 = 1 << 63;

// The bits of a number with its sign set, whatever it was.
pub fn with_sign(bits: u64) -> u64
    ensures { result ≡ signed_bits true bits }
{
    bits | SIGN
}

// The bits of a number's literal.
fn bits_of(token: Token) -> Option<u64>
    ensures { result ≡ bits_of token }
{
    match token {
        Token::Literal(Literal::Integer(integer)) => Some(integer.bits),
        Token::Literal(Literal::Float(bits)) => Some(bits),
        _ => None,
    }
}

impl Numeral for Float {
    type Value = u64;

    ghost worth = { λ _. float_worth };

    fn value_of(&self, negative: bool, token: Token) -> Option<u64> {
        let bits = bits_of(token)?;
        let signed = if negative { with_sign(bits) } else { bits };
        Some(signed)
    }
}

impl Seed for Float {
    type Value = u64;

    ghost meaning = { λ _. float_read };

    ghost lawful = { λ _. number_lawful wanted.Float float_worth };

    fn read(&self, input: &Input) -> Result<Taken<u64>, Fault> {
        read_number(self, Wanted::Float, &input.sheet(), input.rest())
    }
}

impl Words for Float {
    ghost word = { λ _. FloatWord };

    ghost exact = { λ _. float_exact };
}
