ghost use Rattle.std.specs.Prelude.{◌≡◌, ◌+◌, ◌-◌, ◌≤◌};
ghost use Rattle.content.specs.Contents.{alone};

use crate::datum::Datum;
use sheet::input::Input;
use token_de::fault::Fault;
use token_de::seed::Taken;

// The word of a group with no marks, if it is the only one in the body.
pub(crate) fn alone(word: Taken<Datum>, body: &Input) -> Result<Taken<Datum>, Fault>
    requires { body.now.rest.from + word.count ≤ body.now.rest.to }
    ensures { result ≡ alone body.now.rest.from (body.now.rest.to - body.now.rest.from) word }
{
    match body.past(word.count).rest().first() {
        Some(leftover) => Err(Fault::Leftover(leftover)),
        None => Ok(Taken::one(word.value)),
    }
}
