ghost use Rattle.std.specs.Prelude.{◌≡◌, length};
ghost use Rattle.layout.specs.Rules.{limits, Kept};
ghost use Rattle.layout.specs.Scan.{kept};
ghost use Rattle.sheet.specs.Sheets.{held, empty_sheet, sheet_of, Made};

use super::Sheet;
use layout::limits::{LIMITS, Sizes};
use layout::record::Record;
use layout::rules::check;

// The sheet of one record, an empty brace.
const EMPTY: [Record; 1] = [Record {
    kind: 3,
    sub: 1,
    mark: 0,
    a: 1,
    b: 0,
    place: 0,
    value: 0,
    bits: 0,
}];

// Whether these records and pools keep every rule.
#[tactic(auto, using(crate::proofs::Made::kept_checked), unfolding(layout::specs::Scan::kept))]
fn keep_rules(records: &[Record], names: &[u8], strings: &[u8]) -> bool
    ensures { result ≡ kept limits (record { records = records.entry.now; names = names.now; strings = strings.now }) }
{
    let sizes = Sizes {
        records: records.len(),
        names: names.len(),
        strings: strings.len(),
    };
    LIMITS.allow(sizes) && check(&records, LIMITS.bounds(sizes)).is_ok()
}

impl<'a> Sheet<'a> {
    fn empty() -> Sheet<'a>
        ensures { held result ≡ empty_sheet }
    {
        Sheet {
            records: &EMPTY,
            names: &[],
            strings: &[],
        }
    }

    // The sheet of the first `count` records of a table, which may have more places; where the parts break a rule, an empty
    // brace.
    pub fn new(count: usize, table: &'a [Record], names: &'a [u8], strings: &'a [u8]) -> Sheet<'a>
        ensures is { held result ≡ sheet_of count table.now names.now strings.now }
        ensures rules { Made count table.now names.now strings.now (held result) }
    {
        match table.get(..count) {
            Some(records) if keep_rules(records, names, strings) => Sheet {
                records,
                names,
                strings,
            },
            _ => Sheet::empty(),
        }
    }

    // How many records it has. Every sheet keeps the rules.
    pub fn count(&self) -> usize
        ensures value { result ≡ length (held self.now).records }
        ensures rules { Kept limits (held self.now) }
    {
        self.records.len()
    }
}
