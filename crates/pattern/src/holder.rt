// Who sends a tree, of two tables that are valid and agree.
ghost use Rattle.std.specs.Prelude.{◌≡◌, true, ◌<◌};
ghost use Rattle.offsets.specs.Limits.{max_ranks};
ghost use Rattle.offsets.specs.Table.{ranks as ranks_of};
ghost use Rattle.pattern.specs.Means.{TreeOf, TreeTo, held_below, held_above};
ghost use Rattle.pattern.specs.Sender.{sender as sender_is, sender_to, sender_number};
ghost use Rattle.pattern.specs.Answers.{sender_fits, SenderFits, sender_answer};

use crate::SenderAnswer;
use encoding::refusal::Refusal;
use offsets::table::{holds, ranks};

// Whether the rank d below q, if there is one, has tree k.
fn holds_below(old: &[u8], k: u64, q: usize, d: usize) -> bool
    requires { TreeOf old.now k × (q < ranks_of old.now) }
    ensures { result ≡ held_below old.now k q d }
{
    if q < d {
        return false;
    }
    holds(old, q - d, k)
}

// Whether the rank d above q, if there is one, has tree k.
fn holds_above(old: &[u8], k: u64, q: usize, d: usize) -> bool
    requires { TreeOf old.now k × (q < ranks_of old.now) }
    ensures { result ≡ held_above old.now k q d }
{
    let ranks = ranks(old);
    if ranks - q <= d {
        return false;
    }
    holds(old, q + d, k)
}

// The sender of tree k to q, which gets it: the first that has the tree on a walk away from q, at each step to the lower side first.
pub fn sender(old: &[u8], k: u64, q: usize) -> usize
    requires { TreeOf old.now k × (q < ranks_of old.now) }
    ensures { (result ≡ sender_is old.now k q) × (result < max_ranks) }
{
    let end = ranks(old);
    for d in 0..end {
        if holds_below(old, k, q, d) {
            return q - d;
        }
        if holds_above(old, k, q, d) {
            return q + d;
        }
    }
    0
}

// The same where q may not get k: then None.
pub fn sender_to(old: &[u8], new: &[u8], k: u64, q: usize) -> Option<u32>
    requires { TreeTo old.now new.now k q }
    ensures { (result ≡ sender_to old.now new.now k q) × (sender_fits result ≡ true) }
{
    if holds(new, q, k) {
        return Some(sender(old, k, q) as u32);
    }
    None
}

// The number of a sender: the rank, or −1.
pub fn sender_number(sender: Option<u32>) -> i32
    requires { sender_fits sender ≡ true }
    ensures { result ≡ sender_number sender }
{
    match sender {
        Some(p) => p as i32,
        None => -1,
    }
}

// A sender as C gets it. No `From`: its cast needs a fact that a `From` can't ask for.
pub fn sender_answer(answer: Result<Option<u32>, Refusal>) -> SenderAnswer
    requires { SenderFits answer }
    ensures { result ≡ sender_answer answer }
{
    match answer {
        Ok(sender) => SenderAnswer {
            refusal: 0,
            sender: sender_number(sender),
        },
        Err(refusal) => SenderAnswer {
            refusal: refusal.number(),
            sender: 0,
        },
    }
}
