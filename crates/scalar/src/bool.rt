ghost use Rattle.std.specs.Prelude.{◌≡◌};
ghost use Rattle.scalar.specs.Bools.{truth, bool_read, BoolWord, bool_of};
ghost use Rattle.token_de.specs.declared.fault.Wanted.TheVariants as wanted;
ghost use Rattle.token_de.proofs.Trees.{single_lawful};
ghost use Rattle.scalar.specs.BoolWordsLemmas.{bool_exact};

use sheet::input::Input;
use sheet::tree::Tree;
use token_de::fault::{Fault, Wanted};
use token_de::seed::{Seed, Taken, Words};

// A truth value: the identifier `true` or `false`.
#[derive(Clone, Copy)]
pub struct Bool;

// The truth value that a name spells, if it does.
pub fn spelled(name: &[u8]) -> Option<bool>
    ensures { result ≡ truth name.now }
{
    match name {
        b"true" => Some(true),
        b"false" => Some(false),
        _ => None,
    }
}

impl Seed for Bool {
    type Value = bool;

    ghost meaning = { λ _. bool_read };

    ghost lawful = { λ _. single_lawful wanted.Bool bool_of };

    #[tactic(auto, using(sheet::proofs::Inputs::rest_fits))]
    fn read(&self, input: &Input) -> Result<Taken<bool>, Fault> {
        let ended = Fault::ended(Wanted::Bool, input);
        let wrong = Fault::wrong(Wanted::Bool, input);
        let Tree::Ident(name) = input.tree().ok_or(ended)? else {
            return Err(wrong);
        };
        let value = spelled(name).ok_or(wrong)?;
        Ok(Taken::one(value))
    }
}

impl Words for Bool {
    ghost word = { λ _. BoolWord };

    ghost exact = { λ _. bool_exact };
}
