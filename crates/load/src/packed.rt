ghost use Rattle.std.specs.Prelude.{◌≡◌, ℕ, ◌+◌, ◌*◌, ◌<◌, ◌≤◌, ◌++◌, length, drop, slice_index};
ghost use Rattle.load.specs.Files.{record_at, records_of, unpacked};

use layout::record::Record;
use layout::rules::Records;

// Records as they lie in a file.
#[derive(Clone, Copy)]
pub struct Packed<'a> {
    records: &'a [[u8; 32]],
}

// The `N` bytes of a field, from byte `from` of a record on.
fn field<const N: usize>(bytes: &[u8; 32], from: usize) -> [u8; N]
    requires { from + N ≤ 32 }
    ensures { (k : ℕ) → k < N → slice_index result k ≡ slice_index bytes.now (from + k) }
{
    *bytes[from..].first_chunk().unwrap()
}

#[tactic(auto, unfolding(crate::specs::Files::record_at))]
fn record_of(bytes: &[u8; 32]) -> Record
    ensures { result ≡ record_at bytes.now 0 }
{
    Record {
        kind: bytes[0],
        sub: bytes[1],
        mark: u16::from_le_bytes(field(bytes, 2)),
        a: u32::from_le_bytes(field(bytes, 4)),
        b: u32::from_le_bytes(field(bytes, 8)),
        place: u32::from_le_bytes(field(bytes, 12)),
        value: u64::from_le_bytes(field(bytes, 16)),
        bits: u64::from_le_bytes(field(bytes, 24)),
    }
}

impl<'a> Packed<'a> {
    // The first `count` records of these bytes.
    pub(crate) fn new(bytes: &'a [u8], count: usize) -> Packed<'a>
        requires { 32 * count ≤ length bytes.now }
        ensures count { length result.records.now ≡ count }
        ensures records { unpacked result.records.now ≡ records_of count bytes.now }
    {
        let (records, _) = bytes.as_chunks();
        Packed {
            records: &records[..count],
        }
    }

    // Copies the records into the first places of a table; the later places stay.
    #[tactic(auto, using(crate::proofs::Files::copied_more))]
    pub(crate) fn copy_to(&self, table: &mut [Record])
        requires { length self.now.records.now ≤ length table.old }
        ensures { table.new ≡ unpacked self.now.records.now ++ drop (length self.now.records.now) table.old }
    {
        // After a zip with `iter_mut` a proof would know no place of the table.
        for (i, bytes) in self.records.iter().enumerate() {
            table[i] = record_of(bytes);
        }
    }
}

impl Records for Packed<'_> {
    ghost list = { λ s. unpacked s.records.now };

    fn count(&self) -> usize {
        self.records.len()
    }

    fn at(&self, i: usize) -> Record {
        record_of(&self.records[i])
    }
}
