// Content that is no group: a text, another literal, or a `-` and a number.
ghost use Rattle.std.specs.Prelude.{◌≡◌};
ghost use Rattle.sheet.specs.Sheets.{held};
ghost use Rattle.token_de.specs.Meaning.{on};
ghost use Rattle.token_de.specs.Steps.{◌then◌};
ghost use Rattle.scalar.specs.Texts.{string_read};
ghost use Rattle.content.specs.Contents.{taken, text_value, literal_value, negated, from_punct};

use crate::datum::Datum;
use scalar::float::with_sign;
use scalar::number::Numeral;
use scalar::signed::Signed;
use scalar::text::Str;
use sheet::input::Input;
use sheet::token::{Literal, Punct, Token};
use token_de::fault::{Fault, Wanted};
use token_de::seed::{Seed, Taken};

// A name or a string, as a text.
pub(crate) fn text(input: &Input) -> Result<Taken<Datum>, Fault>
    ensures { result ≡ (on string_read input.now then text_value) }
{
    let Taken { count, value } = Str.read(input)?;
    Ok(Taken {
        count,
        value: Datum::Text(value),
    })
}

// The word that the next token is, a literal.
pub(crate) fn from_literal(input: &Input, literal: Literal) -> Result<Taken<Datum>, Fault>
    ensures { result ≡ (literal_value literal input.now.rest.from then taken 1) }
{
    let value = match literal {
        Literal::Char(c) => Datum::Char(c),
        Literal::Integer(integer) => {
            let wrong = Fault::wrong(Wanted::ContentInteger, input);
            Datum::Unsigned(integer.magnitude.ok_or(wrong)?)
        }
        Literal::Float(bits) => Datum::Float(bits),
        _ => return Err(Fault::Unreadable(input.rest().from)),
    };
    Ok(Taken::one(value))
}

// The value of the token behind the next one, a `-`.
fn negated(token: Token, input: &Input) -> Result<Datum, Fault>
    ensures { result ≡ negated token input.now.rest.from }
{
    match token {
        Token::Literal(Literal::Float(bits)) => Ok(Datum::Float(with_sign(bits))),
        Token::Literal(Literal::Integer(_)) => {
            let wrong = Fault::wrong(Wanted::ContentInteger, input);
            let value = Signed::I64.value_of(true, token).ok_or(wrong)?;
            Ok(Datum::Signed(value))
        }
        _ => Err(Fault::wrong(Wanted::Content, input)),
    }
}

// The word that begins with the next token, a punct.
pub(crate) fn from_punct(input: &Input, punct: Punct) -> Result<Taken<Datum>, Fault>
    ensures { result ≡ from_punct (held input.now.sheet) input.now.rest.from input.now.rest.to punct }
{
    match input.past(1).token() {
        Some(token) if punct == Punct::MINUS => {
            let value = negated(token, input)?;
            Ok(Taken { count: 2, value })
        }
        _ => Err(Fault::wrong(Wanted::Content, input)),
    }
}
