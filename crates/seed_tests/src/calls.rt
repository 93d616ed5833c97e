// Random calls on the member list of random tokens, beside a model of the list in plain numbers.
use crate::build::*;
use crate::reads::*;
use access::map_access::{KeyTurn, NextKey, ValueTurn};
use layout::record::Record;
use scalar::signed::Signed;
use scalar::text::Identifier;
use sheet::sheet::Sheet;
use std::fmt::Debug;
use std::process::Abort;
use std::test::Fail;
use token_de::seed::Seed;

// Pseudorandom numbers: xorshift of 64 bits.
#[derive(Drop)]
struct Random {
    state: u64,
}

impl Random {
    fn next(&mut self) -> u64 {
        self.state ^= self.state << 13;
        self.state ^= self.state >> 7;
        self.state ^= self.state << 17;
        self.state
    }

    // True once in so many times.
    fn once_in_eight(&mut self) -> bool {
        self.next() % 8 == 0
    }
}

#[derive(Clone, Copy, PartialEq, Eq)]
enum Kind {
    Name,
    Is,
    Number,
    Comma,
}

impl Kind {
    fn record(self) -> Record {
        match self {
            Kind::Name => ident(0, 1),
            Kind::Is => punct(b'='),
            Kind::Number => integer(5),
            Kind::Comma => punct(b','),
        }
    }

    fn of(number: u64) -> Kind {
        match number % 4 {
            0 => Kind::Name,
            1 => Kind::Is,
            2 => Kind::Number,
            _ => Kind::Comma,
        }
    }
}

const MOST: usize = 12;

// The tokens of entries, now and then with another one in between.
fn random_kinds(random: &mut Random) -> [Kind; MOST] {
    let mut kinds = [Kind::Name; MOST];
    for (place, kind) in kinds.iter_mut().enumerate() {
        let number = if random.once_in_eight() {
            random.next()
        } else {
            place as u64
        };
        *kind = Kind::of(number);
    }
    kinds
}

// A brace round the first tokens, and the records of all.
fn records_of(kinds: &[Kind; MOST], count: u32) -> [Record; 13] {
    let mut records = [group(1, 1, count); 13];
    for (record, kind) in records[1..].iter_mut().zip(kinds.iter()) {
        *record = kind.record();
    }
    records
}

// How many tokens are passed. A token's record is one more than its place.
#[derive(Drop)]
struct Model {
    passed: usize,
}

impl Model {
    fn key(&mut self, kinds: &[Kind]) -> Result<Option<()>, Refusal> {
        let Some(found) = kinds.get(self.passed) else {
            return Ok(None);
        };
        let here = self.passed + 1;
        if *found != Kind::Name {
            return Err((10, here, 7));
        }
        match kinds.get(here) {
            None => Err((13, here, 0)),
            Some(Kind::Is) => {
                self.passed += 2;
                Ok(Some(()))
            }
            _ => Err((13, here + 1, 0)),
        }
    }

    // A value read by a seed that takes one token of this kind.
    fn value(&mut self, kinds: &[Kind], wanted: Kind, detail: u8) -> Result<(), Refusal> {
        let Some(found) = kinds.get(self.passed) else {
            return Err((11, self.passed, detail));
        };
        let here = self.passed + 1;
        if *found != wanted {
            return Err((10, here, detail));
        }
        match kinds.get(here) {
            None => self.passed += 1,
            Some(Kind::Comma) => self.passed += 2,
            _ => return Err((14, here + 1, 0)),
        }
        Ok(())
    }

    fn finish(&self, kinds: &[Kind]) -> Result<(), Refusal> {
        match kinds.get(self.passed) {
            None => Ok(()),
            Some(_) => Err((15, self.passed + 1, 0)),
        }
    }
}

#[derive(Drop)]
enum Turn {
    Key(KeyTurn),
    Value(ValueTurn),
    Over,
}

fn key_call(turn: KeyTurn, sheet: &Sheet) -> (Turn, Result<Option<()>, Refusal>) {
    match turn.next_key_seed(sheet, &Identifier) {
        Ok(NextKey::None(turn)) => (Turn::Key(turn), Ok(None)),
        Ok(NextKey::Key(_, due)) => (Turn::Value(due), Ok(Some(()))),
        Err((turn, fault)) => (Turn::Key(turn), Err(refusal(fault))),
    }
}

fn finish_call(turn: KeyTurn, sheet: &Sheet) -> (Turn, Result<(), Refusal>) {
    match turn.finish(sheet) {
        Ok(()) => (Turn::Over, Ok(())),
        Err((turn, fault)) => (Turn::Key(turn), Err(refusal(fault))),
    }
}

fn value_call<S: Seed>(due: ValueTurn, sheet: &Sheet, seed: &S) -> (Turn, Result<(), Refusal>) {
    match due.next_value_seed(sheet, seed) {
        Ok((_, turn)) => (Turn::Key(turn), Ok(())),
        Err((due, fault)) => (Turn::Value(due), Err(refusal(fault))),
    }
}

// The next turn, where the list answers as the model.
fn checked<A: PartialEq + Debug + Drop>(rt: &impl Abort, call: (Turn, A), want: A) -> Turn {
    let (next, answer) = call;
    assert_eq!(rt; answer, want);
    next
}

// Makes random calls on the list and on the model; answers whether the list was finished.
fn check_calls(
    rt: &impl Abort,
    random: &mut Random,
    kinds: &[Kind],
    records: &[Record],
) -> Result<bool, Fail> {
    let sheet = sheet_of(records);
    let mut model = Model { passed: 0 };
    let mut turn = Turn::Key(KeyTurn::within(body_of(rt, &sheet, records)?));
    for _call in 0..20 {
        let seldom = random.once_in_eight();
        turn = match turn {
            Turn::Key(turn) if seldom => {
                checked(rt, finish_call(turn, &sheet), model.finish(kinds))
            }
            Turn::Key(turn) => checked(rt, key_call(turn, &sheet), model.key(kinds)),
            Turn::Value(due) if seldom => checked(
                rt,
                value_call(due, &sheet, &Identifier),
                model.value(kinds, Kind::Name, 7),
            ),
            Turn::Value(due) => checked(
                rt,
                value_call(due, &sheet, &Signed::I64),
                model.value(kinds, Kind::Number, 2),
            ),
            Turn::Over => return Ok(true),
        };
    }
    Ok(false)
}

#[test]
fn random_calls_answer_as_the_model(rt: HostRuntime) -> Result<(), Fail> {
    let mut random = Random {
        state: 0x9e37_79b9_7f4a_7c15,
    };
    let mut finished = 0usize;
    for _round in 0..300 {
        let kinds = random_kinds(&mut random);
        let count = (random.next() % 13) as usize;
        let records = records_of(&kinds, count as u32);
        if check_calls(&rt, &mut random, &kinds[..count], &records[..count + 1])? {
            finished = finished.saturating_add(1);
        }
    }
    assert!(rt; finished > 50, "few lists were finished");
    assert!(rt; finished < 250, "few lists were left");
    Ok(())
}
