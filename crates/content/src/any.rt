ghost use Rattle.content.specs.Contents.{any_read};
ghost use Rattle.content.specs.Trees.{AnyWord};
ghost use Rattle.content.specs.Steps.{content_lawful};
ghost use Rattle.content.specs.TreesLemmas.{any_exact};

use crate::content::content;
use crate::datum::Datum;
use sheet::input::Input;
use token_de::fault::Fault;
use token_de::seed::{Seed, Taken, Words};

// Record 0 stands alone on its level, and a sheet has at most 32 levels below it.
pub(crate) const LEVELS: usize = 33;

// Any value.
#[derive(Clone, Copy)]
pub struct AnyContent;

impl Seed for AnyContent {
    type Value = Datum;

    ghost meaning = { λ _. any_read };

    ghost lawful = { λ _. content_lawful 33 };

    #[tactic(auto, using(crate::specs::Depths::sheet_levels))]
    fn read(&self, input: &Input) -> Result<Taken<Datum>, Fault> {
        content(input, LEVELS)
    }
}

impl Words for AnyContent {
    ghost word = { λ _. AnyWord };

    ghost exact = { λ _. any_exact };
}
