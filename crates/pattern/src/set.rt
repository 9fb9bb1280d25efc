// The send set and the receive set of a rank: one loop finds both.
ghost use Rattle.std.specs.Prelude.{◌≡◌, ◌≤◌, ltb, length};
ghost use Rattle.offsets.specs.Limits.{max_ranks};
ghost use Rattle.pattern.specs.Calls.{ranks_answer};
ghost use Rattle.pattern.specs.Answers.{ranks_of, SmallNumbers, SetFits};
ghost use Rattle.pattern.specs.Means.{RankOf, PairNear, SetWritten, exchanges_tree, rank_set, rank_set_of};

use crate::Ranks;
use crate::range::{lower_rank, sends_near, sends_some, upper_rank};
use crate::tables::check_tables;
use crate::window::window_of;
use encoding::refusal::Refusal;
use offsets::table::ranks;

// Whether the rank, with the ranks that have trees on either side of it, sends the other a tree; where it isn't sending, whether it gets one from the other. A flag and no closure: it picks one of two calls in one loop, and a closure would need a clause that ties its answers to the set.
fn exchanges(
    old: &[u8],
    new: &[u8],
    rank: usize,
    other: usize,
    sending: bool,
    lower: usize,
    upper: usize,
) -> bool
    requires { PairNear old.now new.now rank other lower upper }
    ensures { result ≡ exchanges_tree old.now new.now rank sending other }
{
    if sending {
        return sends_near(old, new, rank, other, lower, upper);
    }
    sends_some(old, new, other, rank)
}

// How many ranks are in the send set, or in the receive set; written where the list has room for them.
fn set_write(old: &[u8], new: &[u8], rank: usize, sending: bool, out: &mut [u32]) -> usize
    requires { RankOf old.now new.now rank }
    ensures { SetWritten old.now new.now rank sending out.old out.new result }
{
    let window = window_of(old, new, rank, sending);
    let end = window.end;
    let lower = lower_rank(old, rank);
    let upper = upper_rank(old, rank);
    let mut count = 0;
    for other in window.first..end {
        if exchanges(old, new, rank, other, sending, lower, upper) {
            let place = count;
            count += 1;
            if place < out.len() {
                out[place] = other as u32;
            }
        }
    }
    count
}

// How many ranks are in the send set, or in the receive set: the loop that writes them counts them too, and so is the only one.
pub fn set_count(old: &[u8], new: &[u8], rank: usize, sending: bool) -> usize
    requires { RankOf old.now new.now rank }
    ensures { (result ≡ length (rank_set old.now new.now rank sending)) × (result ≤ max_ranks) }
{
    let mut scratch = [0u32; 1];
    set_write(old, new, rank, sending, &mut scratch)
}

// Whether a list with room for so many ranks is too short for the set. One for P ranks never is, and the set isn't counted.
fn too_short(old: &[u8], new: &[u8], rank: usize, sending: bool, room: usize) -> bool
    requires { RankOf old.now new.now rank }
    ensures { result ≡ ltb room (length (rank_set old.now new.now rank sending)) }
{
    if ranks(old) <= room {
        return false;
    }
    room < set_count(old, new, rank, sending)
}

// The answer for a set of ranks: −1 and −2 where it is empty.
fn ranks_found(set: &[u32]) -> Ranks
    requires { SmallNumbers set.now }
    ensures { result ≡ ranks_answer 0 set.now }
{
    let n = set.len();
    if n == 0 {
        return Ranks {
            refusal: 0,
            count: 0,
            smallest: -1,
            largest: -2,
        };
    }
    Ranks {
        refusal: 0,
        count: n as u32,
        smallest: set[0] as i32,
        largest: set[n - 1] as i32,
    }
}

// A set as C gets it, which is the first numbers of the list: −1 and −2 where it is empty. No `From`, as for a sender.
pub fn ranks_answer(answer: Result<u32, Refusal>, list: &[u32]) -> Ranks
    requires { SetFits answer list.now }
    ensures { result ≡ ranks_of answer list.now }
{
    match answer {
        Ok(count) => ranks_found(&list[..count as usize]),
        Err(refusal) => Ranks {
            refusal: refusal.number(),
            count: 0,
            smallest: 0,
            largest: 0,
        },
    }
}

// The send set, or the receive set, of a rank: how many ranks (2, 3, 4, 5, 22).
pub fn rank_set(
    old: &[u8],
    new: &[u8],
    rank: u32,
    sending: bool,
    out: &mut [u32],
) -> Result<u32, Refusal>
    ensures { ((ranks_of result out.new, out.new) ≡ rank_set_of old.now new.now rank sending out.old) × SetFits result out.new }
{
    check_tables(old, new)?;
    let p = rank as usize;
    if ranks(old) <= p {
        return Err(Refusal::Index);
    }
    if too_short(old, new, p, sending, out.len()) {
        return Err(Refusal::Buffer);
    }
    let count = set_write(old, new, p, sending, &mut *out);
    Ok(count as u32)
}
