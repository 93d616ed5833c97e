ghost use Rattle.content.specs.Contents.{ignored_read};
ghost use Rattle.content.specs.Trees.{IgnoredWord};
ghost use Rattle.content.specs.PassedOver.{ignored_lawful, ignored_exact};

use crate::any::AnyContent;
use sheet::input::Input;
use token_de::fault::Fault;
use token_de::seed::{Seed, Taken, Words};

// Any value, which is passed over.
#[derive(Clone, Copy)]
pub struct IgnoredAny;

impl Seed for IgnoredAny {
    type Value = ();

    ghost meaning = { λ _. ignored_read };

    ghost lawful = { λ _. ignored_lawful };

    fn read(&self, input: &Input) -> Result<Taken<()>, Fault> {
        let word = AnyContent.read(input)?;
        Ok(Taken {
            count: word.count,
            value: (),
        })
    }
}

impl Words for IgnoredAny {
    ghost word = { λ _. IgnoredWord };

    ghost exact = { λ _. ignored_exact };
}
