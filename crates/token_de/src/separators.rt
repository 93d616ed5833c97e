// The comma and the `=` that stand behind what a seed took.
ghost use Rattle.std.specs.Prelude.{MatchResult};
ghost use Rattle.token_de.specs.Separators.{Comma, PastComma, NoComma, Equals, PastEquals, NotEquals};

use crate::fault::Fault;
use sheet::input::Input;
use sheet::token::{Punct, Token};

// How many trees stand behind a word before the next one: a comma, or none at the end.
#[inline(always)]
pub fn comma(input: &Input) -> Result<usize, Fault>
    ensures { MatchResult result (Comma input.now) (NoComma input.now) }
{
    match input.token() {
        Some(Token::Punct(punct)) if punct == Punct::COMMA => Ok(1),
        Some(_) => Err(Fault::NoSeparator(input.rest().from)),
        None => Ok(0),
    }
}

// Whether an `=` stands behind the key of `count` trees that is next.
#[inline(always)]
pub fn equals(key: &Input, count: usize) -> Result<(), Fault>
    ensures { MatchResult result (λ _. Equals key.now count) (NotEquals key.now count) }
{
    let behind = key.past(count);
    match behind.token() {
        Some(Token::Punct(punct)) if punct == Punct::EQUALS => Ok(()),
        Some(_) => Err(Fault::NoEquals(behind.rest().from)),
        None => Err(Fault::NoEquals(key.rest().from)),
    }
}

// Past a comma, or at the end.
#[inline(always)]
#[tactic(auto, using(crate::proofs::Passed::comma_passed))]
pub fn past_comma<'a>(input: &Input<'a>) -> Result<Input<'a>, Fault>
    ensures { MatchResult result (PastComma input.now) (NoComma input.now) }
{
    Ok(input.past(comma(input)?))
}

// Past the `=` behind the key of `count` trees that is next.
#[inline(always)]
#[tactic(auto, using(crate::proofs::Passed::equals_passed))]
pub fn past_equals<'a>(key: &Input<'a>, count: usize) -> Result<Input<'a>, Fault>
    ensures { MatchResult result (PastEquals key.now count) (NotEquals key.now count) }
{
    equals(key, count)?;
    Ok(key.past(count).past(1))
}
