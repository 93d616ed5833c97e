ghost use Rattle.token_de.specs.Custom.{Whole};
ghost use Rattle.token_de.specs.Customs.{whole_exact, answers_set};

use crate::fault::Fault;
use crate::seed::{Seed, Taken, Words};
use sheet::input::Input;

// Any seed with a grammar: a word is a run that the seed takes to its last tree.
#[derive(Drop)]
pub struct Custom<S: Seed> {
    pub seed: S,
}

impl<S: Seed> Seed for Custom<S> {
    type Value = S::Value;

    ghost meaning = { λ s. S.Seed.meaning s.seed };

    ghost lawful = { λ s. S.Seed.lawful s.seed };

    fn read(&self, input: &Input) -> Result<Taken<S::Value>, Fault> {
        self.seed.read(input)
    }
}

impl<S: Seed> Words for Custom<S> {
    ghost word = { λ s. Whole (S.Seed.meaning s.seed) };

    ghost exact = { λ s. whole_exact (S.Seed.lawful s.seed) (answers_set S.Value.row) };
}
