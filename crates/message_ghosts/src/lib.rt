// Which ghosts go with a message, as a set of numbers. No calls for users.
#![tactic(auto)]

pub mod marks;
mod near;
mod read;
mod rule;

// What a message is built from: the sender's part, the two tables, and the trees that the receiver gets.
#[derive(Clone, Copy)]
pub struct Sending<'a> {
    pub part: &'a [u8],
    pub old: &'a [u8],
    pub new: &'a [u8],
    pub sender: u32,
    pub receiver: u32,
    // the first tree, and how many
    pub first: u32,
    pub count: u32,
}
