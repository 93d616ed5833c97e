ghost use Rattle.std.specs.Prelude.{◌≡◌, ◌+◌, ◌<◌, ◌≤◌, IfOk};
ghost use Rattle.sheet.specs.Sheets.{held};
ghost use Rattle.token_de.specs.Meaning.{on};
ghost use Rattle.access.specs.Plain.{marked, element_taken, left_over};

use sheet::input::Input;
use sheet::sheet::Sheet;
use sheet::token::{Punct, Token};
use token_de::fault::Fault;
use token_de::seed::{Seed, Taken};
use token_de::separators::past_comma;

// Whether this punct stands at `at`, before the end `to`, wherever these are.
pub fn is_mark(sheet: &Sheet, punct: Punct, at: usize, to: usize) -> bool
    ensures { result ≡ marked (held sheet.now) punct at to }
{
    at < to && sheet.token(at) == Some(Token::Punct(punct))
}

// What a seed takes of an input: at least one tree, and none past its end.
#[inline(always)]
pub(crate) fn take<S: Seed>(input: &Input, seed: &S) -> Result<Taken<S::Value>, Fault>
    ensures value { result ≡ on (S.meaning seed.now) input.now }
    ensures within { IfOk result (λ t. (0 < t.count) × (input.now.rest.from + t.count ≤ input.now.rest.to)) }
{
    seed.read(input)
}

// Reads one value and the comma after it, or the end; answers it with the place behind.
#[inline(always)]
pub(crate) fn one_element<S: Seed>(input: &Input, seed: &S) -> Result<(S::Value, usize), Fault>
    ensures { result ≡ element_taken (held input.now.sheet) input.now.rest.from input.now.rest.to (on (S.meaning seed.now) input.now) }
{
    let Taken { count, value } = take(input, seed)?;
    let behind = past_comma(&input.past(count))?;
    Ok((value, behind.rest().from))
}

// Whether nothing is left; else the first token left is refused.
#[inline(always)]
pub(crate) fn ended(input: &Input) -> Result<(), Fault>
    ensures { result ≡ left_over input.now.rest }
{
    match input.rest().first() {
        Some(left) => Err(Fault::Leftover(left)),
        None => Ok(()),
    }
}
