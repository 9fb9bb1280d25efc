// Writing the output of a plan. No public calls.
#![tactic(auto)]

pub mod moves;
pub mod output;
pub mod put;
