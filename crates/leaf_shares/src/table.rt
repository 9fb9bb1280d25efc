// Writing the table by a walk over the trees.
ghost use Rattle.std.specs.Prelude.{◌≡◌, ◌+◌, ◌*◌, ◌≤◌, ◌<◌, length};
ghost use Rattle.encoding.specs.Pieces.{splice};
ghost use Rattle.encoding.specs.Numbers.{put_u64};
ghost use Rattle.leaf_shares.specs.Leaves.{leaf_start, leaf_table};
ghost use Rattle.leaf_shares.specs.Means.{trees_before, shared_entry, leaf_entry, Walking, Writable};

use crate::counts::sum;
use crate::shares::cut;
use encoding::bytes::write_u64;

// How far a walk over the trees has come: a tree and its first leaf.
#[derive(Clone, Copy)]
pub struct Walk {
    pub tree: usize,
    pub start: u64,
}

// On by 16 trees at a time, while the next one begins before leaf lo: their sum goes by wide loads.
fn stride(leaves: &[u32], from: Walk, lo: u64) -> Walk
    requires { Walking leaves.now lo from.tree from.start }
    ensures { Walking leaves.now lo result.tree result.start }
{
    let mut at = from;
    // 16 trees at a time, as far as leaf lo
    while 16 <= leaves.len() - at.tree {
        let n = sum(leaves, at.tree, at.tree + 16);
        if lo <= at.start + n {
            return at;
        }
        at.start += n;
        at.tree += 16;
    }
    at
}

// On to the first tree that begins at leaf lo or later, or past the last tree.
fn advance(leaves: &[u32], from: Walk, lo: u64) -> Walk
    requires { Walking leaves.now lo from.tree from.start }
    ensures { (result.tree ≡ trees_before leaves.now lo) × (result.start ≡ leaf_start leaves.now result.tree) }
{
    let mut at = stride(leaves, from, lo);
    // a search, which ends at leaf lo
    while at.start < lo {
        at.start += leaves[at.tree] as u64;
        at.tree += 1;
    }
    at
}

// The entry of a rank with leaves lo up to, but without, hi, where `tree` is the first that begins at lo or later.
fn entry_of(tree: u64, start: u64, lo: u64, hi: u64) -> u64
    requires { lo < start → 0 < tree }
    ensures { result ≡ shared_entry tree start lo hi }
{
    if (lo < hi) & (lo < start) {
        u64::MAX - tree + 1
    } else {
        tree
    }
}

// The entry of rank p, which has leaves lo up to, but without, hi. The walk goes on to lo.
pub fn put_rank(leaves: &[u32], from: Walk, lo: u64, hi: u64, p: usize, out: &mut [u8]) -> Walk
    requires { Walking leaves.now lo from.tree from.start × (8 * p + 8 ≤ length out.old) }
    ensures { (result.tree ≡ trees_before leaves.now lo) × (result.start ≡ leaf_start leaves.now result.tree) × (out.new ≡ put_u64 out.old (8 * p) (leaf_entry leaves.now lo hi)) }
{
    let at = advance(leaves, from, lo);
    let entry = entry_of(at.tree as u64, at.start, lo, hi);
    write_u64(&mut *out, 8 * p, entry);
    at
}

// The table of equal shares of the n leaves, at the start of `out`.
pub fn write(ranks: usize, leaves: &[u32], n: u64, out: &mut [u8])
    requires { Writable ranks leaves.now n out.old }
    ensures { out.new ≡ splice out.old 0 (leaf_table ranks leaves.now) }
{
    let w = ranks as u64;
    let mut at = Walk { tree: 0, start: 0 };
    for p in 0..ranks {
        let lo = cut(n, p as u64, w);
        let hi = cut(n, (p + 1) as u64, w);
        at = put_rank(leaves, at, lo, hi, p, &mut *out);
    }
    write_u64(&mut *out, 8 * ranks, leaves.len() as u64);
}
