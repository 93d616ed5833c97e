ghost use Rattle.std.specs.Prelude.{◌≡◌, Bool as Truth, Option as Opt};
ghost use Rattle.sheet.specs.declared.token.Token.{Token as Tok};
ghost use Rattle.sheet.specs.Sheets.{held};
ghost use Rattle.scalar.specs.Numbers.{behind, number_read};

use sheet::sheet::Sheet;
use sheet::spot::Rest;
use sheet::token::{Punct, Token};
use token_de::fault::{Fault, Wanted};
use token_de::seed::{Taken, next_token};

// What a numeral is worth, alone or behind a `-`.
pub trait Numeral {
    type Value: Drop;

    ghost worth: { Self → Truth → Tok → Opt Self.Value };

    fn value_of(&self, negative: bool, token: Token) -> Option<Self::Value>
        ensures { result ≡ worth self.now negative token };
}

// The numeral at `at`, behind a `-`, if a rest that ends at `to` has one there.
fn behind_minus<N: Numeral>(number: &N, sheet: &Sheet, at: usize, to: usize) -> Option<N::Value>
    ensures { result ≡ behind (N.Numeral.worth number.now) (held sheet.now) at to }
{
    if at >= to {
        return None;
    }
    let token = sheet.token(at)?;
    number.value_of(true, token)
}

// A numeral, or a `-` and a numeral. It answers for every rest, also for one that is no run of the sheet.
pub fn read_number<N: Numeral>(
    number: &N,
    wanted: Wanted,
    sheet: &Sheet,
    rest: Rest,
) -> Result<Taken<N::Value>, Fault>
    ensures { result ≡ number_read wanted (N.Numeral.worth number.now) (held sheet.now) rest.from rest.to rest.last }
{
    let wrong = Fault::Wrong(wanted, rest.from);
    let token = next_token(sheet, rest, wanted)?;
    if token == Token::Punct(Punct::MINUS) {
        let value = behind_minus(number, sheet, rest.from + 1, rest.to).ok_or(wrong)?;
        return Ok(Taken { count: 2, value });
    }
    let value = number.value_of(false, token).ok_or(wrong)?;
    Ok(Taken::one(value))
}
