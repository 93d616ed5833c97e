// Loads a sheet file: checks the whole of it, then copies its records into the caller's table.
#![tactic(auto)]

pub mod load;
mod packed;
