// Messages between ranks.
#![tactic(auto)]

ghost use Rattle.std.specs.Prelude.{◌≡◌};
ghost use Rattle.encoding.specs.Refusals.{refusal_of, length_of};
ghost use Rattle.message.specs.Calls.{message_refusal, reading_of};

use encoding::refusal::Refusal;

pub mod header;
pub mod layout;
pub mod place;

// Check a message (11).
pub fn check_message(message: &[u8]) -> Result<(), Refusal>
    ensures { refusal_of result ≡ message_refusal message.now }
{
    if !layout::in_layout(message) {
        return Err(Refusal::Layout);
    }
    Ok(())
}

// Begin to read a message (11): how many records it has, trees and ghosts together.
pub fn begin_reading(message: &[u8]) -> Result<u64, Refusal>
    ensures { length_of result ≡ reading_of message.now }
{
    check_message(message)?;
    let trees = header::tree_count(message) as u64;
    let ghosts = header::ghost_count(message) as u64;
    Ok(trees + ghosts)
}
