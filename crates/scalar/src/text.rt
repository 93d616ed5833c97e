ghost use Rattle.std.specs.Prelude.{◌≡◌};
ghost use Rattle.scalar.specs.Texts.{in_pool, identifier_read, IdentifierWord, string_read, StringWord, TextRefusedAsString, identifier_of, string_of};
ghost use Rattle.token_de.specs.declared.fault.Wanted.TheVariants as wanted;
ghost use Rattle.token_de.proofs.Trees.{single_lawful};
ghost use Rattle.scalar.specs.TextWordsLemmas.{identifier_exact, string_exact};

use sheet::input::Input;
use sheet::text::Pool;
use sheet::token::{Part, Token};
use token_de::fault::{Fault, Wanted};
use token_de::seed::{Seed, Taken, Words, first_token};

// A text by where it lies: its pool, its first byte there, and its length.
#[derive(Clone, Copy, PartialEq, Eq, Debug)]
pub struct TextPart {
    pub pool: Pool,
    pub start: usize,
    pub len: usize,
}

impl TextPart {
    // This part of this pool.
    pub fn new(pool: Pool, part: Part) -> TextPart
        ensures { result ≡ in_pool pool part }
    {
        let Part { start, len } = part;
        TextPart { pool, start, len }
    }
}

// A name: one identifier.
#[derive(Clone, Copy)]
pub struct Identifier;

// A text: one identifier or one string literal.
#[derive(Clone, Copy)]
pub struct Str;

impl Seed for Identifier {
    type Value = TextPart;

    ghost meaning = { λ _. identifier_read };

    ghost lawful = { λ _. single_lawful wanted.Identifier identifier_of };

    fn read(&self, input: &Input) -> Result<Taken<TextPart>, Fault> {
        match first_token(input, Wanted::Identifier)? {
            Token::Ident(part) => Ok(Taken::one(TextPart::new(Pool::Names, part))),
            _ => Err(Fault::wrong(Wanted::Identifier, input)),
        }
    }
}

impl Words for Identifier {
    ghost word = { λ _. IdentifierWord };

    ghost exact = { λ _. identifier_exact };
}

impl Seed for Str {
    type Value = TextPart;

    ghost meaning = { λ _. string_read };

    ghost lawful = { λ _. single_lawful wanted.String string_of };

    fn read(&self, input: &Input) -> Result<Taken<TextPart>, Fault> {
        match first_token(input, Wanted::String)? {
            Token::Ident(part) => Ok(Taken::one(TextPart::new(Pool::Names, part))),
            Token::String(part) => Ok(Taken::one(TextPart::new(Pool::Strings, part))),
            _ => Err(Fault::wrong(Wanted::String, input)),
        }
    }
}

impl Words for Str {
    ghost word = { λ _. StringWord };

    ghost exact = { λ _. string_exact };
}

// The text read of a cursor is refused exactly as this seed is.
pub fn text_refused_as_str()
    ensures { TextRefusedAsString }
{}
