// The trees from one rank to another, of two tables that are valid and agree.
ghost use Rattle.std.specs.Prelude.{◌≡◌, true, ◌+◌, ◌≤◌, ◌<◌, min, max, length};
ghost use Rattle.offsets.specs.Limits.{max_ranks};
ghost use Rattle.offsets.specs.Table.{table_length, ranks_ok, ranks as ranks_of};
ghost use Rattle.pattern.specs.Means.{PairOf, PairNear, has_trees, lower_rank, upper_rank, sent_low, sent_high};
ghost use Rattle.pattern.specs.Sender.{sent_first, sent_count};
ghost use Rattle.pattern.specs.Sets.{sends_to};

use offsets::Trees;
use offsets::table::{end_tree, entry, first_tree, magnitude, ranks};

fn has_trees(t: &[u8], p: usize) -> bool
    requires { table_length (p + 1) ≤ length t.now }
    ensures { result ≡ has_trees t.now p }
{
    first_tree(t, p) < end_tree(t, p)
}

// The nearest rank below p that has trees; 0 where none has.
pub fn lower_rank(t: &[u8], p: usize) -> usize
    requires { (ranks_ok t.now ≡ true) × (p < ranks_of t.now) }
    ensures { (result ≡ lower_rank t.now p) × (result < max_ranks) }
{
    for m in (0..p).rev() {
        if has_trees(t, m) {
            return m;
        }
    }
    0
}

// The nearest rank above p that has trees; P where none has.
pub fn upper_rank(t: &[u8], p: usize) -> usize
    requires { (ranks_ok t.now ≡ true) × (p < ranks_of t.now) }
    ensures { (result ≡ upper_rank t.now p) × (result ≤ max_ranks) }
{
    let end = ranks(t);
    for n in p + 1..end {
        if has_trees(t, n) {
            return n;
        }
    }
    end
}

// The first tree from p to q, if there is one.
fn sent_low(old: &[u8], new: &[u8], p: usize, q: usize, lower: usize) -> u64
    requires { PairOf old.now new.now p q × (lower ≡ lower_rank old.now p) }
    ensures { result ≡ sent_low old.now new.now p q }
{
    let first = first_tree(old, p).max(first_tree(new, q));
    if q + q <= lower + p {
        return magnitude(entry(old, p)).max(first);
    }
    first
}

// One past the last tree from p to q, if there is one.
fn sent_high(old: &[u8], new: &[u8], p: usize, q: usize, upper: usize) -> u64
    requires { PairOf old.now new.now p q × (upper ≡ upper_rank old.now p) }
    ensures { result ≡ sent_high old.now new.now p q }
{
    let end = end_tree(old, p).min(end_tree(new, q));
    if upper + p < q + q {
        return first_tree(old, upper).min(end);
    }
    end
}

// The trees from one rank to another, the first 0 where there are none, with the ranks that have trees on either side of p.
pub fn sent_near(old: &[u8], new: &[u8], p: usize, q: usize, lower: usize, upper: usize) -> Trees
    requires { PairNear old.now new.now p q lower upper }
    ensures { (result.first ≡ sent_first old.now new.now p q) × (result.count ≡ sent_count old.now new.now p q) }
{
    let low = sent_low(old, new, p, q, lower);
    let high = sent_high(old, new, p, q, upper);
    if high <= low {
        return Trees { first: 0, count: 0 };
    }
    Trees {
        first: low as u32,
        count: (high - low) as u32,
    }
}

pub fn sent(old: &[u8], new: &[u8], p: usize, q: usize) -> Trees
    requires { PairOf old.now new.now p q }
    ensures { (result.first ≡ sent_first old.now new.now p q) × (result.count ≡ sent_count old.now new.now p q) }
{
    if !has_trees(old, p) {
        return Trees { first: 0, count: 0 };
    }
    sent_near(old, new, p, q, lower_rank(old, p), upper_rank(old, p))
}

// Whether p sends q a tree, with the ranks that have trees on either side of p.
pub fn sends_near(old: &[u8], new: &[u8], p: usize, q: usize, lower: usize, upper: usize) -> bool
    requires { PairNear old.now new.now p q lower upper }
    ensures { result ≡ sends_to old.now new.now p q }
{
    sent_low(old, new, p, q, lower) < sent_high(old, new, p, q, upper)
}

// Whether p sends q a tree.
pub fn sends_some(old: &[u8], new: &[u8], p: usize, q: usize) -> bool
    requires { PairOf old.now new.now p q }
    ensures { result ≡ sends_to old.now new.now p q }
{
    if !has_trees(old, p) {
        return false;
    }
    sends_near(old, new, p, q, lower_rank(old, p), upper_rank(old, p))
}
