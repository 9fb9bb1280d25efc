// The checks of a close, decided on the area's slots. No calls for users.
#![tactic(auto)]

pub mod check;
pub mod heard;
pub mod join;
