// Bits of words, and sets of numbers as words.
#![tactic(auto)]

pub mod set;
pub mod word;
