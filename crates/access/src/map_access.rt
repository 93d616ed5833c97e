use sheet::spot::Spot;

pub mod calls;
pub mod law;

// A member list at a key turn: a key read and a finish are all that it has.
#[derive(Drop)]
pub struct KeyTurn {
    at: Spot,
}

// A member list at a value turn, after a key: a value read is all that it has.
#[derive(Drop)]
pub struct ValueTurn {
    at: Spot,
}

// What a key read answers: no more entries and the turn to finish, or a key and the turn to read its value. Each
// case hands on a turn, so it is no `Option`.
#[derive(Drop)]
pub enum NextKey<V> {
    None(KeyTurn),
    Key(V, ValueTurn),
}
