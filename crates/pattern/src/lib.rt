// Who sends: the communication pattern between an old and a new partition.
#![tactic(auto)]

ghost use Rattle.std.specs.Prelude.{◌≡◌};
ghost use Rattle.offsets.specs.Answers.{range_of};
ghost use Rattle.pattern.specs.Answers.{sender_answer, ranks_of, SenderFits, SetFits};
ghost use Rattle.pattern.specs.Calls.{sender_of, trees_sent, send_set_of, receive_set_of};

use encoding::refusal::Refusal;
use holder::sender_to;
use offsets::Trees;
use offsets::table::{ranks, trees};
use set::rank_set;
use tables::check_tables;

pub mod holder;
pub mod range;
pub mod set;
pub mod tables;
pub mod window;

// The sender's number as C gets it, −1 for nobody. When refused, `refusal` is the number of the first check that failed and the rest is 0.
#[repr(C)]
#[derive(Clone, Copy)]
pub struct SenderAnswer {
    pub refusal: u32,
    pub sender: i32,
}

// A set of ranks as C gets it: how many, the smallest and the largest (−1 and −2 where it is empty). When refused, `refusal` is the number of the first check that failed and the rest is 0.
#[repr(C)]
#[derive(Clone, Copy)]
pub struct Ranks {
    pub refusal: u32,
    pub count: u32,
    pub smallest: i32,
    pub largest: i32,
}

// The sender of a tree to a rank, None where nobody sends it (2, 3, 4, 5).
pub fn sender_of(old: &[u8], new: &[u8], tree: u32, receiver: u32) -> Result<Option<u32>, Refusal>
    ensures { (sender_answer result ≡ sender_of old.now new.now tree receiver) × SenderFits result }
{
    check_tables(old, new)?;
    let k = tree as u64;
    if trees(old) <= k {
        return Err(Refusal::Index);
    }
    let q = receiver as usize;
    if ranks(old) <= q {
        return Err(Refusal::Index);
    }
    Ok(sender_to(old, new, k, q))
}

// The trees from one rank to another (2, 3, 4, 5).
pub fn trees_sent(old: &[u8], new: &[u8], sender: u32, receiver: u32) -> Result<Trees, Refusal>
    ensures { range_of result ≡ trees_sent old.now new.now sender receiver }
{
    check_tables(old, new)?;
    let ranks = ranks(old);
    let p = sender as usize;
    if ranks <= p {
        return Err(Refusal::Index);
    }
    let q = receiver as usize;
    if ranks <= q {
        return Err(Refusal::Index);
    }
    Ok(range::sent(old, new, p, q))
}

// The ranks to which a rank sends, ascending: how many (2, 3, 4, 5, 22).
pub fn send_set(old: &[u8], new: &[u8], rank: u32, out: &mut [u32]) -> Result<u32, Refusal>
    ensures { ((ranks_of result out.new, out.new) ≡ send_set_of old.now new.now rank out.old) × SetFits result out.new }
{
    rank_set(old, new, rank, true, out)
}

// The ranks from which a rank gets trees, ascending: how many (2, 3, 4, 5, 22).
pub fn receive_set(old: &[u8], new: &[u8], rank: u32, out: &mut [u32]) -> Result<u32, Refusal>
    ensures { ((ranks_of result out.new, out.new) ≡ receive_set_of old.now new.now rank out.old) × SetFits result out.new }
{
    rank_set(old, new, rank, false, out)
}
