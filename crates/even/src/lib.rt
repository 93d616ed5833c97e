// A seed of a customer's own, as an example to copy: even integers.
#![tactic(auto)]

pub mod even;
