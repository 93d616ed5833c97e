use crate::map_access::{KeyTurn, ValueTurn};
use sheet::spot::Spot;

pub mod calls;

// What a caller does at a key turn: one of three, so it is no `Option`.
#[derive(Drop)]
pub enum KeyMove<K> {
    Read(K),
    Finish,
    Stop,
}

// A member list between two calls; at the end only where it stood is left.
#[derive(Drop)]
pub enum Talk {
    Key(KeyTurn),
    Value(ValueTurn),
    Over(Spot),
}
