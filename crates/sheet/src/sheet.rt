ghost use Rattle.std.specs.Prelude.{◌≡◌, true};
ghost use Rattle.layout.specs.Rules.{limits};
ghost use Rattle.layout.specs.Scan.{kept};

use layout::record::Record;

pub mod make;
pub mod read;
pub mod runs;

// The records of a sheet and its two pools of text, which keep every rule.
#[derive(Clone, Copy)]
pub struct Sheet<'a> {
    records: &'a [Record],
    names: &'a [u8],
    strings: &'a [u8],
    ghost lawful: { kept limits (record { records = records.now; names = names.now; strings = strings.now }) ≡ true },
}
