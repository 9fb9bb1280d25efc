// The records of a message by their place, for the reader. They look at the message's length and not at its layout, which `message::begin_reading` checks.
ghost use Rattle.std.specs.Prelude.{◌≡◌};
ghost use Rattle.message.specs.Reading.{record_at, remain_after};

use crate::header::{ghost_count, tree_count};
use crate::layout::{ghost_at, size_laid, tree_at};

// Record i of a message, as a part of the lent bytes: trees first, then ghosts, after the last an empty piece.
pub fn record_at<'a>(message: &'a [u8], i: u64) -> &'a [u8]
    ensures { result.now ≡ record_at message.now i }
{
    if !size_laid(message) {
        return &message[..0];
    }
    let trees = tree_count(message);
    if i < trees as u64 {
        let at = tree_at(i as u32);
        return &message[at..at + 64];
    }
    let j = i - (trees as u64);
    if j < ghost_count(message) as u64 {
        let at = ghost_at(trees, j as u32);
        return &message[at..at + 40];
    }
    &message[..0]
}

// How many records remain after record i: 0 after the last.
pub fn remain_after(message: &[u8], i: u64) -> u64
    ensures { result ≡ remain_after message.now i }
{
    if !size_laid(message) {
        return 0;
    }
    let trees = tree_count(message) as u64;
    let ghosts = ghost_count(message) as u64;
    let count = trees + ghosts;
    if count <= i {
        return 0;
    }
    count - i - 1
}
