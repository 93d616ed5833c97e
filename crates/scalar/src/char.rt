ghost use Rattle.scalar.specs.Chars.{char_read, CharWord, char_of};
ghost use Rattle.token_de.specs.declared.fault.Wanted.TheVariants as wanted;
ghost use Rattle.token_de.proofs.Trees.{single_lawful};
ghost use Rattle.scalar.specs.CharWordsLemmas.{char_exact};

use sheet::input::Input;
use sheet::token::{Literal, Token};
use token_de::fault::{Fault, Wanted};
use token_de::seed::{Seed, Taken, Words, first_token};

// A character: one char literal.
#[derive(Clone, Copy)]
pub struct Char;

impl Seed for Char {
    type Value = char;

    ghost meaning = { λ _. char_read };

    ghost lawful = { λ _. single_lawful wanted.Char char_of };

    fn read(&self, input: &Input) -> Result<Taken<char>, Fault> {
        match first_token(input, Wanted::Char)? {
            Token::Literal(Literal::Char(value)) => Ok(Taken::one(value)),
            _ => Err(Fault::wrong(Wanted::Char, input)),
        }
    }
}

impl Words for Char {
    ghost word = { λ _. CharWord };

    ghost exact = { λ _. char_exact };
}
