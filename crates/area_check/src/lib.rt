// Whether an area is sound. No calls for users.
#![tactic(auto)]

pub mod sound;
