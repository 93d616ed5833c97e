ghost use Rattle.std.specs.Prelude.{◌≡◌, ◌&&◌, length, nat_lt};
ghost use Rattle.layout.specs.Rules.{entry};
ghost use Rattle.sheet.specs.Sheets.{held};
ghost use Rattle.sheet.specs.Spots.{holds, some_holds, is_run, stands, last_passed, Rested};

use super::Sheet;
use crate::spot::{Body, Rest, Spot};
use layout::record::Record;

// Whether a record is a group whose body holds the records of this run.
#[inline(always)]
fn holds(record: &Record, run: Body) -> bool
    ensures { result ≡ holds «record».now run.from run.to }
{
    record.is_group()
        && record.a as usize <= run.from
        && run.to <= record.a as usize + record.b as usize
}

impl Sheet<'_> {
    // Whether the group that the run came from holds it.
    #[inline(always)]
    fn body_holds(&self, run: Body) -> bool
        ensures { result ≡ (nat_lt run.parent (length (held self.now).records) && holds (entry (held self.now).records run.parent) run.from run.to) }
    {
        match self.records.get(run.parent) {
            Some(record) => holds(record, run),
            None => false,
        }
    }

    // Whether some group holds the run. The one that it came from is asked first, since it mostly does.
    fn some_body_holds(&self, run: Body) -> bool
        ensures { result ≡ some_holds (held self.now).records run.from run.to }
    {
        self.body_holds(run) || self.records.iter().any(|record| holds(record, run))
    }

    // Whether it has this run.
    #[inline(always)]
    #[tactic(auto, unfolding(crate::specs::Spots::is_run))]
    pub(crate) fn has_run(&self, run: Body) -> bool
        ensures { result ≡ is_run (held self.now) run.from run.to }
    {
        run.from <= run.to && (run.to <= 1 || self.some_body_holds(run))
    }

    // Whether it has the spot's run, and the spot stands in it.
    #[inline(always)]
    fn stands(&self, spot: Spot) -> bool
        ensures { result ≡ stands (held self.now) spot }
    {
        let Spot {
            group,
            first,
            place,
            end,
        } = spot;
        let run = Body {
            parent: group,
            from: first,
            to: end,
        };
        self.has_run(run) && first <= place && place <= end
    }
}

impl Spot {
    #[inline(always)]
    fn last_passed(&self) -> Option<usize>
        ensures { result ≡ last_passed self.now }
    {
        (self.first < self.place).then(|| self.place - 1)
    }
}

impl Sheet<'_> {
    // The rest of a spot's run, and the last token passed: nothing where this sheet does not have the run.
    #[inline(always)]
    pub fn rest(&self, spot: Spot) -> Rest
        ensures { Rested (held self.now) spot result }
    {
        if !self.stands(spot) {
            return Rest {
                from: 0,
                to: 0,
                last: None,
            };
        }
        Rest {
            from: spot.place,
            to: spot.end,
            last: spot.last_passed(),
        }
    }
}
