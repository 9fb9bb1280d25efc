// Whether a column file is that of a sound part. No calls for users.
#![tactic(auto)]

pub mod sound;
