// A file, loaded and read as one value.
#![tactic(auto)]

pub mod error;
pub mod read;
