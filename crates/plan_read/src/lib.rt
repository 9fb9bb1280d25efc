// Reading the text of two tables. No public calls.
#![tactic(auto)]

pub mod input;
pub mod number;
