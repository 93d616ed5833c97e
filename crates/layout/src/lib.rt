// The records of a sheet file and the rules that they keep.
#![tactic(auto)]

pub mod fault;
pub mod kind;
pub mod limits;
pub mod record;
pub mod rules;
