ghost use Rattle.std.specs.Prelude.{◌≡◌};
ghost use Rattle.sheet.specs.Sheets.{held};
ghost use Rattle.sheet.specs.Spots.{at_body};
ghost use Rattle.access.specs.Elements.{element_read, element_shown, elements_ended, ended_shown};

use crate::reads::{ended, one_element};
use sheet::sheet::Sheet;
use sheet::spot::{Body, Spot};
use token_de::fault::Fault;
use token_de::seed::Seed;

// The elements of a list body that are still to be read.
#[derive(Drop)]
pub struct Elements {
    at: Spot,
}

impl Elements {
    // On the body of a group.
    pub fn within(body: Body) -> Elements
        ensures { result.at ≡ at_body body }
    {
        Elements {
            at: Spot::within(body),
        }
    }

    // Reads an element and the comma after it, or the end; nothing is left: none. A refusal hands the same state back.
    #[tactic(auto, using(sheet::proofs::Inputs::rest_order))]
    pub fn next_element_seed<S: Seed>(
        self,
        sheet: &Sheet,
        seed: &S,
    ) -> Result<(Option<S::Value>, Elements), (Elements, Fault)>
        ensures { element_shown result ≡ element_read (held sheet.now) (S.meaning seed.now) self.at }
    {
        let input = sheet.input(self.at);
        if input.rest().first().is_none() {
            return Ok((None, self));
        }
        match one_element(&input, seed) {
            Ok((value, behind)) => {
                let left = Elements {
                    at: self.at.past(behind),
                };
                Ok((Some(value), left))
            }
            Err(fault) => Err((self, fault)),
        }
    }

    // Ends the list, where nothing is left. A refusal hands the same state back.
    pub fn finish(self, sheet: &Sheet) -> Result<(), (Elements, Fault)>
        ensures { ended_shown self.at result ≡ elements_ended (held sheet.now) self.at }
    {
        ended(&sheet.input(self.at)).map_err(|fault| (self, fault))
    }
}
