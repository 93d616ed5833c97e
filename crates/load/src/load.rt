ghost use Rattle.std.specs.Prelude.{◌≡◌, ℕ, ◌<◌, length, MatchResult};
ghost use Rattle.layout.specs.Rules.{limits};
ghost use Rattle.load.specs.Files.{Split, Accepted, Refused};

use crate::packed::Packed;
use layout::fault::LoadFault;
use layout::limits::{LIMITS, Sizes};
use layout::record::Record;
use layout::rules::check;

// What a load leaves beside the records in the table: their number, and the two pools in the file.
#[derive(Clone, Copy)]
pub struct Loaded<'a> {
    pub count: usize,
    pub names: &'a [u8],
    pub strings: &'a [u8],
}

// The sizes in the first twelve bytes of a file, and the bytes after these.
fn take_head(file: &[u8]) -> Result<(Sizes, &[u8]), LoadFault>
    ensures { MatchResult result (λ p. Split file.now p.0.records p.0.names p.0.strings p.1.now) (λ f. (f ≡ LoadFault.Short) × (length file.now < 12)) }
{
    let [n0, n1, n2, n3, l0, l1, l2, l3, m0, m1, m2, m3, rest @ ..] = file else {
        return Err(LoadFault::Short);
    };
    let records = u32::from_le_bytes([*n0, *n1, *n2, *n3]) as usize;
    let names = u32::from_le_bytes([*l0, *l1, *l2, *l3]) as usize;
    let strings = u32::from_le_bytes([*m0, *m1, *m2, *m3]) as usize;
    Ok((
        Sizes {
            records,
            names,
            strings,
        },
        rest,
    ))
}

// Loads a file: checks the whole of it, and then copies its records into the first places of the table.
#[tactic(auto, using(crate::proofs::Loads::refused_short, crate::proofs::Loads::refused_length, crate::proofs::Loads::refused_table, crate::proofs::Loads::refused_record))]
pub fn load<'a>(file: &'a [u8], table: &mut [Record]) -> Result<Loaded<'a>, LoadFault>
    ensures { MatchResult result (λ l. Accepted limits file.now table.old table.new l.count l.names.now l.strings.now) (λ f. Refused limits file.now table.old table.new f) }
{
    let (head, rest) = take_head(file)?;
    if !LIMITS.allow(head) {
        return Err(LoadFault::OutOfRange);
    }
    let records = 32 * head.records;
    if rest.len() != records + head.names + head.strings {
        return Err(LoadFault::WrongLength);
    }
    if table.len() < head.records {
        return Err(LoadFault::SmallTable);
    }
    let packed = Packed::new(rest, head.records);
    check(&packed, LIMITS.bounds(head))?;
    packed.copy_to(table);
    let (_, pools) = rest.split_at(records);
    let (names, strings) = pools.split_at(head.names);
    Ok(Loaded {
        count: head.records,
        names,
        strings,
    })
}
