// What a reader at a place of a message hands out, for callers that hold no reader. As `message::place` they look at the message's length and not at its layout.
ghost use Rattle.std.specs.Prelude.{◌≡◌};
ghost use Rattle.message.specs.Reading.{record_at};
ghost use Rattle.message_reader.specs.Handing.{following_of};

use crate::{Reader, next};

// What follows a record: how many remain, and the next place.
#[derive(Clone, Copy)]
pub struct Following {
    pub remain: u64,
    pub at: u64,
}

// The record at a place.
pub fn read<'a>(message: &'a [u8], at: u64) -> &'a [u8]
    ensures { result.now ≡ record_at message.now at }
{
    let step = next(Reader { message, at });
    step.piece
}

// What follows it.
pub fn after(message: &[u8], at: u64) -> Following
    ensures { result ≡ following_of message.now at }
{
    let step = next(Reader { message, at });
    Following {
        remain: step.remain,
        at: step.reader.at,
    }
}
