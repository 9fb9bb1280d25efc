// Parts of a whole mesh: the layout, and the range of a rank with its ghosts. No calls for users.
#![tactic(auto)]

pub mod layout;
pub mod range;
