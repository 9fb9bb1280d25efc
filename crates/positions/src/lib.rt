// The position of a number among core records that ascend, in constant time. No calls for users.
#![tactic(auto)]

pub mod index;
