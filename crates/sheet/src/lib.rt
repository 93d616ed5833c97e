// The lawful sheet: its tokens, its trees and its runs.
#![tactic(auto)]

pub mod input;
pub mod sheet;
pub mod spot;
pub mod text;
pub mod token;
pub mod tree;
