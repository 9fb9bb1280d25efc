// The checks of a message's ghosts, before a delivery. No calls for users.
#![tactic(auto)]

pub mod ghosts;
