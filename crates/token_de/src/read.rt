ghost use Rattle.std.specs.Prelude.{MatchResult};
ghost use Rattle.sheet.specs.Sheets.{held};
ghost use Rattle.token_de.specs.Reading.{Accepted, Refused};

use crate::cursor::TokenDe;
use crate::fault::Fault;
use crate::seed::{Taken, Words};
use sheet::sheet::Sheet;

impl TokenDe {
    // Reads the word that the rest of the run begins with, and passes it; refused where it begins with none.
    pub fn read<S: Words>(&mut self, sheet: &Sheet, seed: &S) -> Result<S::Value, Fault>
        ensures { MatchResult result
            (λ v. Accepted (S.Words.word seed.now) (held sheet.now) self.old.at self.new.at v)
            (λ f. Refused (S.Seed.meaning seed.now) (S.Words.word seed.now) (held sheet.now) self.old.at self.new.at f) }
    {
        let input = sheet.input(self.at);
        let Taken { count, value } = seed.read(&input)?;
        self.at = self.at.past(input.rest().from + count);
        Ok(value)
    }
}
