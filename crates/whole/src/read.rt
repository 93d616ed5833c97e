ghost use Rattle.std.specs.Result.{MatchResult};
ghost use Rattle.sheet.specs.Sheets.{held};
ghost use Rattle.whole.specs.Wholes.{RootAccepted, RootRefused, Accepted, Refused};

use crate::error::FileError;
use layout::record::Record;
use load::load::load;
use sheet::sheet::Sheet;
use token_de::cursor::TokenDe;
use token_de::fault::Fault;
use token_de::seed::Words;

// Reads record 0 of a sheet through the seed.
fn read_root<S: Words>(sheet: &Sheet, seed: &S) -> Result<S::Value, Fault>
    ensures { MatchResult result
        (λ v. RootAccepted (S.Words.word seed.now) (held sheet.now) v)
        (λ x. RootRefused (S.Seed.meaning seed.now) (S.Words.word seed.now) (held sheet.now) x) }
{
    let mut cursor = TokenDe::new();
    cursor.read(sheet, seed)
}

// Loads a file into the table, and reads record 0, the whole of it, through the seed.
#[tactic(auto, using(crate::proofs::Wholes::read, crate::proofs::Wholes::unread, crate::proofs::Wholes::unloaded))]
pub fn from_file<S: Words>(
    file: &[u8],
    table: &mut [Record],
    seed: &S,
) -> Result<S::Value, FileError>
    ensures { MatchResult result
        (λ v. Accepted (S.Words.word seed.now) file.now table.old table.new v)
        (λ x. Refused (S.Seed.meaning seed.now) (S.Words.word seed.now) file.now table.old table.new x) }
{
    let loaded = load(file, table)?;
    let sheet = Sheet::new(loaded.count, table, loaded.names, loaded.strings);
    let value = read_root(&sheet, seed)?;
    Ok(value)
}
