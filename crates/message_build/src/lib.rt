// Building a message from a part.
#![tactic(auto)]

ghost use Rattle.std.specs.Prelude.{◌≡◌};
ghost use Rattle.encoding.specs.Refusals.{length_of};
ghost use Rattle.message.specs.Calls.{message_length_of, build_message_of};

use encoding::refusal::Refusal;
use message_ghosts::Sending;

mod check;
mod index;
pub mod length;
pub mod write;

// How long the message is (2, 3, 4, 5, 8, 9).
pub fn message_length(
    part: &[u8],
    old: &[u8],
    new: &[u8],
    sender: u32,
    receiver: u32,
) -> Result<u64, Refusal>
    ensures { length_of result ≡ message_length_of part.now old.now new.now sender receiver }
{
    check::check_build(part, old, new, sender, receiver)?;
    let sent = pattern::range::sent(old, new, sender as usize, receiver as usize);
    let sending = Sending {
        part,
        old,
        new,
        sender,
        receiver,
        first: sent.first,
        count: sent.count,
    };
    let mut marks = [0u64; 16384];
    let words = length::mark_words(part);
    let g = length::going(sending, &mut marks[..words]);
    Ok(message::layout::ghost_at(sent.count, g) as u64)
}

// Build the message from the sender's part to the receiver (2, 3, 4, 5, 8, 9, 22).
pub fn build_message(
    part: &[u8],
    old: &[u8],
    new: &[u8],
    sender: u32,
    receiver: u32,
    epoch: u32,
    out: &mut [u8],
) -> Result<u64, Refusal>
    ensures { (length_of result, out.new) ≡ build_message_of part.now old.now new.now sender receiver epoch out.old }
{
    check::check_build(part, old, new, sender, receiver)?;
    let sent = pattern::range::sent(old, new, sender as usize, receiver as usize);
    let sending = Sending {
        part,
        old,
        new,
        sender,
        receiver,
        first: sent.first,
        count: sent.count,
    };
    write::build_sent(sending, epoch, &mut *out)
}
