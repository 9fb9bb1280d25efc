// The area in which a rank's new part is assembled: its layout, how it is read, and its header. No calls for users.
#![tactic(auto)]

pub mod header;
pub mod layout;
pub mod read;
