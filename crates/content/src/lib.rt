// The seeds of content, which takes any value whose tokens alone say what it is.
#![tactic(auto)]

pub mod any;
pub(crate) mod atom;
pub(crate) mod body;
pub(crate) mod content;
pub mod datum;
pub mod ignored;
