// A caller of the driver, as an example to copy: entries of a name and a text.
#![tactic(auto)]

pub mod entries;
