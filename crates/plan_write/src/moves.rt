// The moves.
ghost use Rattle.std.specs.Prelude.{◌≡◌, cond, length};
ghost use Rattle.encoding.specs.Below.{count_below};
ghost use Rattle.offsets.specs.Table.{ranks as ranks_of};
ghost use Rattle.pattern.specs.Sets.{sends_to};
ghost use Rattle.pattern.specs.Means.{RankOf, PairOf};
ghost use Rattle.plan_write.specs.Moves.{moves_from, moves_text, move_count};
ghost use Rattle.plan_write.specs.Means.{Put, Small, Moved, FitsRow, FitsPair, FitsFrom, FitsMoves, PlanTables, row_text, pair_text};

use crate::put::{decimal_length, put_number, put_word};
use offsets::table::ranks;
use pattern::range::sent;

// How many bytes the text of some moves has, and how many moves it lists.
#[derive(Clone, Copy)]
pub struct Size {
    pub bytes: usize,
    pub moves: usize,
}

fn row_length(p: u64, q: u64, first: u64, last: u64) -> usize
    requires { Small p q first last }
    ensures { result ≡ length (row_text p q first last) }
{
    b"move=,,,\n".len()
        + decimal_length(p)
        + decimal_length(q)
        + decimal_length(first)
        + decimal_length(last)
}

// A move: sender, receiver, first and last tree.
fn put_row(out: &mut [u8], at: usize, p: u64, q: u64, first: u64, last: u64) -> usize
    requires { FitsRow out.old at p q first last }
    ensures { Put out.old out.new at result (row_text p q first last) }
{
    let a = put_word(&mut *out, at, b"move=");
    let b = put_number(&mut *out, a, p, b',');
    let c = put_number(&mut *out, b, q, b',');
    let d = put_number(&mut *out, c, first, b',');
    put_number(&mut *out, d, last, b'\n')
}

// The first and the last tree of the move from p to q, if there is one.
fn moved(old: &[u8], new: &[u8], p: usize, q: usize) -> Option<(u64, u64)>
    requires { PairOf old.now new.now p q }
    ensures { Moved old.now new.now p q result }
{
    let trees = sent(old, new, p, q);
    if trees.count == 0 {
        return None;
    }
    let first = trees.first as u64;
    Some((first, first + trees.count as u64 - 1))
}

fn pair_size(old: &[u8], new: &[u8], p: usize, q: usize) -> Size
    requires { PairOf old.now new.now p q }
    ensures { (result.bytes ≡ length (pair_text old.now new.now p q)) × (result.moves ≡ cond (sends_to old.now new.now p q) 1 0) }
{
    match moved(old, new, p, q) {
        None => Size { bytes: 0, moves: 0 },
        Some((first, last)) => Size {
            bytes: row_length(p as u64, q as u64, first, last),
            moves: 1,
        },
    }
}

// The move from p to q, if there is one.
fn put_pair(out: &mut [u8], at: usize, old: &[u8], new: &[u8], p: usize, q: usize) -> usize
    requires { FitsPair old.now new.now out.old at p q }
    ensures { Put out.old out.new at result (pair_text old.now new.now p q) }
{
    match moved(old, new, p, q) {
        None => at,
        Some((first, last)) => put_row(&mut *out, at, p as u64, q as u64, first, last),
    }
}

fn from_size(old: &[u8], new: &[u8], p: usize) -> Size
    requires { RankOf old.now new.now p }
    ensures { (result.bytes ≡ length (moves_from old.now new.now p (ranks_of old.now))) × (result.moves ≡ count_below (ranks_of old.now) (sends_to old.now new.now p)) }
{
    let n = ranks(old);
    let mut bytes: usize = 0;
    let mut moves: usize = 0;
    for q in 0..n {
        let s = pair_size(old, new, p, q);
        bytes += s.bytes;
        moves += s.moves;
    }
    Size { bytes, moves }
}

// The moves from p.
fn put_from(out: &mut [u8], at: usize, old: &[u8], new: &[u8], p: usize) -> usize
    requires { FitsFrom old.now new.now out.old at p }
    ensures { Put out.old out.new at result (moves_from old.now new.now p (ranks_of old.now)) }
{
    let n = ranks(old);
    let mut next = at;
    for q in 0..n {
        next = put_pair(&mut *out, next, old, new, p, q);
    }
    next
}

pub fn moves_size(old: &[u8], new: &[u8]) -> Size
    requires { PlanTables old.now new.now }
    ensures { (result.bytes ≡ length (moves_text old.now new.now (ranks_of old.now))) × (result.moves ≡ move_count old.now new.now) }
{
    let n = ranks(old);
    let mut bytes: usize = 0;
    let mut moves: usize = 0;
    for p in 0..n {
        let s = from_size(old, new, p);
        bytes += s.bytes;
        moves += s.moves;
    }
    Size { bytes, moves }
}

// All moves, by sender and then receiver.
pub fn put_moves(out: &mut [u8], at: usize, old: &[u8], new: &[u8]) -> usize
    requires { FitsMoves old.now new.now out.old at }
    ensures { Put out.old out.new at result (moves_text old.now new.now (ranks_of old.now)) }
{
    let n = ranks(old);
    let mut next = at;
    for p in 0..n {
        next = put_from(&mut *out, next, old, new, p);
    }
    next
}
