ghost use Rattle.std.specs.Prelude.{◌≡◌};
ghost use Rattle.sheet.specs.Sheets.{held};
ghost use Rattle.token_de.specs.Meaning.{Meaning, on, Lawful, Grammar, Exact};
ghost use Rattle.token_de.specs.Steps.{next};

use crate::fault::{Fault, Wanted};
use sheet::input::Input;
use sheet::sheet::Sheet;
use sheet::spot::Rest;
use sheet::token::Token;

// What a seed took of a run: how many trees, and the value that it made of them.
#[derive(Drop)]
pub struct Taken<V> {
    pub count: usize,
    pub value: V,
}

// Reads a value from the front of a run: serde's `DeserializeSeed` and its `Visitor` as one interface.
pub trait Seed {
    type Value: Drop;

    // what it answers on a run, after the last token passed
    ghost meaning: { Self → Meaning Self.Value };

    fn read(&self, input: &Input) -> Result<Taken<Self::Value>, Fault>
        ensures { result ≡ on (meaning self.now) input.now };

    ghost lawful: { (s : Self) → Lawful (meaning s) };
}

// A seed with a grammar: which runs are its words, and what values they have.
pub trait Words: Seed {
    ghost word: { Self → Grammar Self.Value };

    ghost exact: { (s : Self) → Exact (Self.Seed.meaning s) (word s) };
}

impl<V> Taken<V> {
    // One tree, and its value.
    #[inline(always)]
    pub fn one(value: V) -> Taken<V>
        ensures { result ≡ record { count = 1; value = value } }
    {
        Taken { count: 1, value }
    }
}

// The next token of a rest, on a sheet that need not have it as a run; `wanted` says what was to stand there.
#[inline(always)]
pub fn next_token(sheet: &Sheet, rest: Rest, wanted: Wanted) -> Result<Token, Fault>
    ensures { result ≡ next wanted (held sheet.now) rest.from rest.to rest.last }
{
    let ended = Fault::Ended(wanted, rest.last.unwrap_or(0));
    if rest.from >= rest.to {
        return Err(ended);
    }
    sheet.token(rest.from).ok_or(ended)
}

// The next token of an input.
#[inline(always)]
pub fn first_token(input: &Input, wanted: Wanted) -> Result<Token, Fault>
    ensures { result ≡ next wanted (held input.now.sheet) input.now.rest.from input.now.rest.to input.now.rest.last }
{
    next_token(&input.sheet(), input.rest(), wanted)
}
