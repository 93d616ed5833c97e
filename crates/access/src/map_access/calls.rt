ghost use Rattle.std.specs.Prelude.{◌≡◌};
ghost use Rattle.sheet.specs.Sheets.{held};
ghost use Rattle.sheet.specs.Spots.{at_root, at_body};
ghost use Rattle.token_de.specs.Meaning.{on};
ghost use Rattle.access.specs.Plain.{named, key_taken, key_read, value_read, finished, key_shown, value_shown, finish_shown};

use super::{KeyTurn, NextKey, ValueTurn};
pub use crate::reads::is_mark;
use crate::reads::{ended, one_element, take};
use sheet::input::Input;
use sheet::sheet::Sheet;
use sheet::spot::{Body, Rest, Spot};
use token_de::fault::Fault;
use token_de::seed::{Seed, Taken};
use token_de::separators::past_equals;

// Reads one key and the `=` after it; answers it with the place behind.
#[inline(always)]
fn one_key<K: Seed>(input: &Input, seed: &K) -> Result<(K::Value, usize), Fault>
    ensures { result ≡ key_taken (held input.now.sheet) input.now.rest.from input.now.rest.to (on (K.meaning seed.now) input.now) }
{
    let Taken { count, value } = take(input, seed)?;
    let behind = past_equals(input, count)?;
    Ok((value, behind.rest().from))
}

// A data fault that stands at record 0 is named by the first token of the value, if there is one.
#[inline(always)]
fn named(fault: Fault, rest: Rest) -> Fault
    ensures { result ≡ named rest.from rest.to fault }
{
    match (fault, rest.first()) {
        (Fault::Data(data, 0), Some(first)) => Fault::Data(data, first),
        _ => fault,
    }
}

impl KeyTurn {
    // On record 0 alone.
    pub fn on_root() -> KeyTurn
        ensures { result.at ≡ at_root }
    {
        KeyTurn { at: Spot::root() }
    }

    // On the body of a group.
    pub fn within(body: Body) -> KeyTurn
        ensures { result.at ≡ at_body body }
    {
        KeyTurn {
            at: Spot::within(body),
        }
    }

    // Where it stands.
    pub(crate) fn at(&self) -> Spot
        ensures { result ≡ self.now.at }
    {
        self.at
    }

    // Reads a key and the `=` after it; nothing is left: none. A refusal hands the same turn back.
    #[tactic(auto, using(sheet::proofs::Inputs::rest_order))]
    pub fn next_key_seed<K: Seed>(
        self,
        sheet: &Sheet,
        seed: &K,
    ) -> Result<NextKey<K::Value>, (KeyTurn, Fault)>
        ensures { key_shown result ≡ key_read (held sheet.now) (K.meaning seed.now) self.at }
    {
        let input = sheet.input(self.at);
        if input.rest().first().is_none() {
            return Ok(NextKey::None(self));
        }
        match one_key(&input, seed) {
            Ok((value, behind)) => {
                let due = ValueTurn {
                    at: self.at.past(behind),
                };
                Ok(NextKey::Key(value, due))
            }
            Err(fault) => Err((self, fault)),
        }
    }

    // Ends the list, where nothing is left. A refusal hands the same turn back.
    pub fn finish(self, sheet: &Sheet) -> Result<(), (KeyTurn, Fault)>
        ensures { finish_shown self.at result ≡ finished (held sheet.now) self.at }
    {
        ended(&sheet.input(self.at)).map_err(|fault| (self, fault))
    }
}

impl ValueTurn {
    // Reads a value and the comma after it, or the end. A refusal hands the same turn back.
    pub fn next_value_seed<V: Seed>(
        self,
        sheet: &Sheet,
        seed: &V,
    ) -> Result<(V::Value, KeyTurn), (ValueTurn, Fault)>
        ensures { value_shown result ≡ value_read (held sheet.now) (V.meaning seed.now) self.at }
    {
        let input = sheet.input(self.at);
        match one_element(&input, seed) {
            Ok((value, behind)) => {
                let turn = KeyTurn {
                    at: self.at.past(behind),
                };
                Ok((value, turn))
            }
            Err(fault) => Err((self, named(fault, input.rest()))),
        }
    }
}
