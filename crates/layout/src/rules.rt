ghost use Rattle.std.specs.Prelude.{◌≡◌, ℕ, ◌<◌, List, length, MatchResult};
ghost use Rattle.layout.specs.declared.record.Record.{Record as Entry};
ghost use Rattle.layout.specs.Rules.{lined, literal, is_punct, is_scalar, part_fits, group, entry, Ruled, FirstBreak};
ghost use Rattle.layout.specs.Scan.{fitting, fault_of, along, level_at, first_fault, refusal};

use crate::fault::LoadFault;
use crate::kind::{Delimiter, Kind, LiteralKind};
pub use crate::limits::Bounds;
use crate::record::Record;

// The pattern of the f64 above all finite ones.
const INFINITY: u64 = 0x7ff0_0000_0000_0000;

// Whether it is the ASCII code of one of the 22 puncts.
#[tactic(auto, unfolding(crate::specs::Rules::is_punct))]
pub fn is_punct(code: u8) -> bool
    ensures { result ≡ is_punct code }
{
    b"=<>!~+-*/%^&|@.,;:#$?'".contains(&code)
}

fn is_scalar(value: u64) -> bool
    ensures { result ≡ is_scalar value }
{
    u32::try_from(value).is_ok_and(|code| char::from_u32(code).is_some())
}

impl Record {
    #[inline(always)]
    pub fn is_group(&self) -> bool
        ensures { result ≡ group self.now }
    {
        matches!(Kind::try_from(self.kind), Ok(Kind::Group))
    }

    // Whether its text ends inside a pool of so many bytes.
    fn part_fits(&self, pool: usize) -> bool
        ensures { result ≡ part_fits self.now pool }
    {
        self.a as usize + self.b as usize <= pool
    }

    // Whether it is on the line of its kind.
    fn in_line(&self, bounds: Bounds) -> bool
        ensures { result ≡ lined bounds.names bounds.strings self.now }
    {
        match Kind::try_from(self.kind) {
            Ok(Kind::Ident) => self.part_fits(bounds.names),
            Ok(Kind::Punct) => is_punct(self.sub),
            Ok(Kind::Literal) => self.is_literal(bounds.strings),
            Ok(Kind::Group) => Delimiter::try_from(self.sub).is_ok(),
            Err(_) => false,
        }
    }

    fn is_literal(&self, strings: usize) -> bool
        ensures { result ≡ literal strings self.now }
    {
        match LiteralKind::try_from(self.sub) {
            Ok(LiteralKind::String) => self.part_fits(strings),
            Ok(LiteralKind::Char) => is_scalar(self.value),
            Ok(LiteralKind::Integer) => self.mark <= 1 && self.bits <= INFINITY,
            Ok(LiteralKind::Float) => self.bits <= INFINITY,
            Ok(
                LiteralKind::ByteString
                | LiteralKind::CString
                | LiteralKind::Byte
                | LiteralKind::Other,
            ) => true,
            Err(_) => false,
        }
    }

    // Whether it is placed as record `i` of `count` should be, where the last body ended at `next`.
    fn fits(&self, count: usize, i: usize, next: usize) -> bool
        ensures { result ≡ fitting count i next self.now }
    {
        let inside = if i == 0 {
            self.is_group() && matches!(Delimiter::try_from(self.sub), Ok(Delimiter::Brace))
        } else {
            i < next
        };
        let body = if self.is_group() {
            self.a as usize == next && self.a as usize + self.b as usize <= count
        } else {
            true
        };
        inside && body
    }
}

// How far a check has come: where the last body ended, the depth that it is at, and where that depth ends.
#[derive(Clone, Copy)]
pub struct Track {
    next: usize,
    level: u32,
    upto: usize,
}

impl Track {
    // The depth of record `i`.
    #[inline(always)]
    fn level_at(&self, i: usize) -> u64
        ensures { result ≡ level_at i self.now }
    {
        if i == self.upto {
            u64::from(self.level) + 1
        } else {
            u64::from(self.level)
        }
    }

    // The track behind record `i` of `count`, or the first of its rules that this record breaks.
    #[inline(always)]
    fn along(
        &self,
        bounds: Bounds,
        count: usize,
        i: usize,
        record: &Record,
    ) -> Result<Track, LoadFault>
        ensures { MatchResult result (λ t. (fault_of bounds.names bounds.strings bounds.depth count i self.now «record».now ≡ None) × (t ≡ along i self.now «record».now)) (λ f. fault_of bounds.names bounds.strings bounds.depth count i self.now «record».now ≡ Some f) }
    {
        if !record.in_line(bounds) {
            return Err(LoadFault::OffLine(i));
        }
        if !record.fits(count, i, self.next) {
            return Err(LoadFault::Misplaced(i));
        }
        let level = self.level_at(i);
        if level > u64::from(bounds.depth) {
            return Err(LoadFault::TooDeep(i));
        }
        let next = if record.is_group() {
            record.a as usize + record.b as usize
        } else {
            self.next
        };
        let upto = if i == self.upto { self.next } else { self.upto };
        Ok(Track {
            next,
            level: level as u32,
            upto,
        })
    }
}

// A row of records, wherever they lie.
pub trait Records {
    ghost list: { Self → List Entry };

    fn count(&self) -> usize
        ensures { result ≡ length (list self.now) };

    // It is asked for records below the count alone.
    fn at(&self, i: usize) -> Record
        requires { i < length (list self.now) }
        ensures { result ≡ entry (list self.now) i };
}

impl Records for &[Record] {
    ghost list = { λ s. s.now };

    fn count(&self) -> usize {
        self.len()
    }

    fn at(&self, i: usize) -> Record {
        self[i]
    }
}

// Checks the rules of all records in one pass: the first record that breaks one is named, with the first rule
// that it breaks.
#[tactic(auto, unfolding(crate::specs::Scan::first_fault))]
pub fn check<R: Records>(records: &R, bounds: Bounds) -> Result<(), LoadFault>
    ensures same { refusal result ≡ first_fault bounds.names bounds.strings bounds.depth (R.list records.now) }
    ensures rules { MatchResult result (λ _. (i : ℕ) → i < length (R.list records.now) → Ruled bounds.names bounds.strings bounds.depth (R.list records.now) i) (λ f. FirstBreak bounds.names bounds.strings bounds.depth (R.list records.now) f) }
{
    let count = records.count();
    let mut track = Track {
        next: 1,
        level: 0,
        upto: 1,
    };
    // An iterator of any type would require of every caller that it ends.
    for i in 0..count {
        track = track.along(bounds, count, i, &records.at(i))?;
    }
    Ok(())
}
