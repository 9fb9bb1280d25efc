// The checks of a delivery: whether an area takes a message. No calls for users.
#![tactic(auto)]

pub mod check;
