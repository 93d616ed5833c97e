ghost use Rattle.even.specs.Evens.{even_read};
ghost use Rattle.even.specs.EvenLemmas.{even_lawful};

use scalar::integer::magnitude_of;
use sheet::input::Input;
use token_de::fault::{DataFault, Fault, Wanted};
use token_de::seed::{Seed, Taken, first_token};

// An even integer: one integer literal that fits 64 bits. An odd one is a data fault.
#[derive(Clone, Copy)]
pub struct Even;

// This seed's data fault.
const ODD: DataFault = DataFault::Custom(100);

impl Seed for Even {
    type Value = u64;

    ghost meaning = { λ _. even_read };

    ghost lawful = { λ _. even_lawful };

    fn read(&self, input: &Input) -> Result<Taken<u64>, Fault> {
        let token = first_token(input, Wanted::Unsigned)?;
        let value = magnitude_of(token).ok_or(Fault::wrong(Wanted::Unsigned, input))?;
        if value % 2 == 0 {
            Ok(Taken::one(value))
        } else {
            Err(Fault::Data(ODD, 0))
        }
    }
}
