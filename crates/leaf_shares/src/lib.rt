// Shares of leaves: where they are cut, and the table that a walk over the trees writes of them.
#![tactic(auto)]

pub mod counts;
pub mod shares;
pub mod table;
