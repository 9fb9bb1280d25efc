// Records stored by columns: reading them, and trees behind each other that are alike. No calls for users.
#![tactic(auto)]

pub mod alike;
pub mod file;
pub mod read;
