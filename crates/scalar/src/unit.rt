ghost use Rattle.scalar.specs.Units.{unit_read, UnitWord, unit_of};
ghost use Rattle.token_de.specs.declared.fault.Wanted.TheVariants as wanted;
ghost use Rattle.token_de.proofs.Trees.{single_lawful};
ghost use Rattle.scalar.specs.EmptyParensWordsLemmas.{unit_exact};

use sheet::input::Input;
use sheet::token::{Delimiter, Token};
use token_de::fault::{Fault, Wanted};
use token_de::seed::{Seed, Taken, Words, first_token};

// The unit value: an empty pair of parentheses.
#[derive(Clone, Copy)]
pub struct EmptyParens;

impl Seed for EmptyParens {
    type Value = ();

    ghost meaning = { λ _. unit_read };

    ghost lawful = { λ _. single_lawful wanted.Unit unit_of };

    fn read(&self, input: &Input) -> Result<Taken<()>, Fault> {
        match first_token(input, Wanted::Unit)? {
            Token::Group(group) if group.delimiter == Delimiter::Parenthesis && group.count == 0 =>
                Ok(Taken::one(())),
            _ => Err(Fault::wrong(Wanted::Unit, input)),
        }
    }
}

impl Words for EmptyParens {
    ghost word = { λ _. UnitWord };

    ghost exact = { λ _. unit_exact };
}
