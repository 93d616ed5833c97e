ghost use Rattle.std.specs.Prelude.{◌≡◌};
ghost use Rattle.sheet.specs.Sheets.{held};
ghost use Rattle.access.specs.Talks.{state_of, Model, Leaves, turn_after, Talked};

use super::{KeyMove, Talk};
use crate::map_access::{KeyTurn, NextKey, ValueTurn};
use sheet::sheet::Sheet;
use token_de::fault::Fault;
use token_de::seed::Seed;

// Who makes the calls: it chooses each next call by what it has heard so far, and it hears each answer.
pub trait Caller<K: Seed, V: Seed> {
    // what it chooses at each turn, and what it becomes by what it hears
    ghost model: { Model Self K V K.Value V.Value };

    fn at_key(&self) -> KeyMove<K>
        ensures { result ≡ model.asks self.now };

    // The seed to read the value with; without one the calls end.
    fn at_value(&self) -> Option<V>
        ensures { result ≡ model.reads self.now };

    fn hear_key(&mut self, answer: Result<Option<K::Value>, Fault>)
        ensures { self.new ≡ model.told_key self.old answer };

    fn hear_value(&mut self, answer: Result<V::Value, Fault>)
        ensures { self.new ≡ model.told_value self.old answer };

    fn hear_finish(&mut self, answer: Result<(), Fault>)
        ensures { self.new ≡ model.told_finish self.old answer };
}

// The call that the caller chooses at a key turn, and what it is told.
fn key_turn<K: Seed + Drop, V: Seed + Drop, C: Caller<K, V>>(
    caller: &mut C,
    turn: KeyTurn,
    sheet: &Sheet,
) -> Talk
    ensures { Leaves (turn_after C.model K.meaning V.meaning (held sheet.now) caller.old (state_of (Talk.Key turn))) caller.new (state_of result) }
{
    match caller.at_key() {
        KeyMove::Read(seed) => {
            let (answer, talk) = match turn.next_key_seed(sheet, &seed) {
                Ok(NextKey::None(turn)) => (Ok(None), Talk::Key(turn)),
                Ok(NextKey::Key(value, due)) => (Ok(Some(value)), Talk::Value(due)),
                Err((turn, fault)) => (Err(fault), Talk::Key(turn)),
            };
            caller.hear_key(answer);
            talk
        }
        KeyMove::Finish => {
            let at = turn.at();
            let (answer, talk) = match turn.finish(sheet) {
                Ok(()) => (Ok(()), Talk::Over(at)),
                Err((turn, fault)) => (Err(fault), Talk::Key(turn)),
            };
            caller.hear_finish(answer);
            talk
        }
        KeyMove::Stop => Talk::Key(turn),
    }
}

// The call that the caller chooses at a value turn, and what it is told.
fn value_turn<K: Seed + Drop, V: Seed + Drop, C: Caller<K, V>>(
    caller: &mut C,
    due: ValueTurn,
    sheet: &Sheet,
) -> Talk
    ensures { Leaves (turn_after C.model K.meaning V.meaning (held sheet.now) caller.old (state_of (Talk.Value due))) caller.new (state_of result) }
{
    let Some(seed) = caller.at_value() else {
        return Talk::Value(due);
    };
    let (answer, talk) = match due.next_value_seed(sheet, &seed) {
        Ok((value, turn)) => (Ok(value), Talk::Key(turn)),
        Err((due, fault)) => (Err(fault), Talk::Value(due)),
    };
    caller.hear_value(answer);
    talk
}

// One turn: the call that the caller chooses, if any.
fn next_call<K: Seed + Drop, V: Seed + Drop, C: Caller<K, V>>(
    caller: &mut C,
    talk: Talk,
    sheet: &Sheet,
) -> Talk
    ensures { Leaves (turn_after C.model K.meaning V.meaning (held sheet.now) caller.old (state_of talk)) caller.new (state_of result) }
{
    match talk {
        Talk::Key(turn) => key_turn(caller, turn, sheet),
        Talk::Value(due) => value_turn(caller, due, sheet),
        Talk::Over(at) => Talk::Over(at),
    }
}

// Makes the calls that the caller chooses, in so many turns at most: there is nothing to iterate over but their number.
pub fn drive<K: Seed + Drop, V: Seed + Drop, C: Caller<K, V>>(
    caller: &mut C,
    turn: KeyTurn,
    sheet: &Sheet,
    turns: usize,
) -> Talk
    ensures { Talked C.model K.meaning V.meaning (held sheet.now) turns caller.old (state_of (Talk.Key turn)) caller.new (state_of result) }
{
    let mut talk = Talk::Key(turn);
    for _turn in 0..turns {
        talk = next_call(caller, talk, sheet);
    }
    talk
}
