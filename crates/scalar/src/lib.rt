// The seeds that read one value of one token, or of a `-` and one token. Those of one token share their law,
// `single_lawful` and `single_exact`; a trait or a function for their code would take as many lines in each.
#![tactic(auto)]

pub mod bool;
pub mod char;
pub mod float;
pub mod integer;
pub mod number;
pub mod signed;
pub mod text;
pub mod unit;
pub mod unsigned;
