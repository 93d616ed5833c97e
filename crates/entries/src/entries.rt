ghost use Rattle.std.specs.Prelude.{◌≡◌};
ghost use Rattle.sheet.specs.Sheets.{held};
ghost use Rattle.entries.specs.Entries.{caller, told_key, told_value, read_whole};

use access::drive::calls::{Caller, drive};
use access::drive::{KeyMove, Talk};
use access::map_access::KeyTurn;
use scalar::text::{Identifier, Str, TextPart};
use sheet::sheet::Sheet;
use sheet::spot::Body;
use token_de::fault::Fault;

// Reads entries of a name and a text while there are any, then finishes. It stops at the first refusal.
#[derive(Clone, Copy)]
pub enum Entries {
    Reading,
    Ended,
    Stopped,
}

impl Caller<Identifier, Str> for Entries {
    ghost model = { caller };

    fn at_key(&self) -> KeyMove<Identifier> {
        match self {
            Entries::Reading => KeyMove::Read(Identifier),
            Entries::Ended => KeyMove::Finish,
            Entries::Stopped => KeyMove::Stop,
        }
    }

    fn at_value(&self) -> Option<Str> {
        match self {
            Entries::Reading => Some(Str),
            _ => None,
        }
    }

    fn hear_key(&mut self, answer: Result<Option<TextPart>, Fault>)
        ensures { self.new ≡ told_key self.old answer }
    {
        *self = match answer {
            Ok(Some(_)) => Entries::Reading,
            Ok(None) => Entries::Ended,
            Err(_) => Entries::Stopped,
        };
    }

    fn hear_value(&mut self, answer: Result<TextPart, Fault>)
        ensures { self.new ≡ told_value self.old answer }
    {
        *self = match answer {
            Ok(_) => Entries::Reading,
            Err(_) => Entries::Stopped,
        };
    }

    fn hear_finish(&mut self, _answer: Result<(), Fault>) {
        *self = Entries::Stopped;
    }
}

// Whether a body is read to its end as entries of a name and a text.
// Every accepted call but the finish passes a token, so two turns more than the sheet has records are enough.
pub fn read_whole(sheet: &Sheet, body: Body) -> bool
    ensures { result ≡ read_whole (held sheet.now) body }
{
    let mut caller = Entries::Reading;
    let turns = sheet.count() + 2;
    matches!(
        drive(&mut caller, KeyTurn::within(body), sheet, turns),
        Talk::Over(_)
    )
}
