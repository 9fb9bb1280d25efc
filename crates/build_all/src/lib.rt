// Building the messages to all receivers under one check of the part.
#![tactic(auto)]

ghost use Rattle.std.specs.Prelude.{◌≡◌};
ghost use Rattle.build_all.specs.Answers.{messages_of};
ghost use Rattle.build_all.specs.Calls.{build_all_length_of, build_all_of};

use each::Sender;
use encoding::refusal::Refusal;

mod check;
mod each;

// How many messages a call wrote or was asked about, and how long they are together.
#[derive(Clone, Copy, Debug, PartialEq, Eq)]
pub struct Built {
    pub count: u32,
    pub length: u64,
}

// The same as C gets it. When refused, `refusal` is the number of the first check that failed and the rest is 0.
#[repr(C)]
#[derive(Clone, Copy)]
pub struct Messages {
    pub refusal: u32,
    pub count: u32,
    pub length: u64,
}

impl From<Result<Built, Refusal>> for Messages {
    ghost from_gives = { λ answer messages. messages ≡ messages_of answer };

    fn from(answer: Result<Built, Refusal>) -> Messages {
        match answer {
            Ok(built) => Messages {
                refusal: 0,
                count: built.count,
                length: built.length,
            },
            Err(refusal) => Messages {
                refusal: refusal.number(),
                count: 0,
                length: 0,
            },
        }
    }
}

// How many messages the sender has, one to itself among them where it keeps trees, and how long they are together (2, 3, 4, 5, 8).
pub fn build_all_length(part: &[u8], old: &[u8], new: &[u8], sender: u32) -> Result<Built, Refusal>
    ensures { messages_of result ≡ build_all_length_of part.now old.now new.now sender }
{
    check::check_build(part, old, new, sender)?;
    let mut marks = [0u64; 16384];
    let words = message_build::length::mark_words(part);
    let from = Sender {
        part,
        old,
        new,
        rank: sender,
    };
    let length = each::messages_length(from, &mut marks[..words]);
    let count = pattern::set::set_count(old, new, sender as usize, true);
    Ok(Built {
        count: count as u32,
        length: length as u64,
    })
}

// Build the messages to every rank of the sender's send set, ascending by receiver, end to end (2, 3, 4, 5, 8, 22).
pub fn build_all(
    part: &[u8],
    old: &[u8],
    new: &[u8],
    sender: u32,
    epoch: u32,
    out: &mut [u8],
) -> Result<Built, Refusal>
    ensures { (messages_of result, out.new) ≡ build_all_of part.now old.now new.now sender epoch out.old }
{
    check::check_build(part, old, new, sender)?;
    let mut marks = [0u64; 16384];
    let words = message_build::length::mark_words(part);
    let from = Sender {
        part,
        old,
        new,
        rank: sender,
    };
    let length = each::build_messages(from, epoch, &mut marks[..words], &mut *out)?;
    let count = pattern::set::set_count(old, new, sender as usize, true);
    Ok(Built {
        count: count as u32,
        length,
    })
}
