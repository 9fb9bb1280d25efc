// The links of ghosts, looked at from one end: for parts and for areas. No calls for users.
#![tactic(auto)]

pub mod check;
