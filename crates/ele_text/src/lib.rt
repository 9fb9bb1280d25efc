// Reading the text of Triangle's element files. No public calls.
#![tactic(auto)]

pub mod field;
pub mod file;
pub mod line;
