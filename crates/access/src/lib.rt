// Serde's accesses as moved states of plain numbers: each call spends a state and answers the next.
#![tactic(auto)]

pub mod drive;
pub mod map_access;
pub mod reads;
pub mod seq_access;
