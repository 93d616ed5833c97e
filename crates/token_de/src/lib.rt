// The cursor over the trees of a sheet, the seeds that it reads through, and why a read is refused.
#![tactic(auto)]

pub mod cursor;
pub mod custom;
pub mod fault;
pub mod read;
pub mod seed;
pub mod separators;
