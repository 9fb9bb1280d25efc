// Sums of leaf counts over blocks of 256 trees.
ghost use Rattle.std.specs.Prelude.{◌≡◌, true, ◌&&◌, ◌+◌, ◌*◌, ◌≤◌, ◌<◌, length};
ghost use Rattle.leaf_shares.specs.Leaves.{leaves_ok, leaf_start};
ghost use Rattle.leaves.specs.Blocks.{block_sum, sums_ok, pair_total};
ghost use Rattle.leaves.specs.Means.{Adding, AllSums};

use leaf_shares::counts::{leaves_ok, sum};

// The leaves of block b.
fn block_sum(leaves: &[u32], b: usize) -> u64
    requires { (leaves_ok leaves.now ≡ true) × (256 * b < length leaves.now) }
    ensures { result ≡ block_sum leaves.now b }
{
    let from = 256 * b;
    let trees = (leaves.len() - from).min(256);
    sum(leaves, from, from + trees)
}

fn sums_ok(leaves: &[u32], sums: &[u64]) -> bool
    requires { leaves_ok leaves.now ≡ true }
    ensures { result ≡ sums_ok leaves.now sums.now }
{
    if sums.len() != (leaves.len() + 255) / 256 {
        return false;
    }
    for (b, &sum) in sums.iter().enumerate() {
        if sum != block_sum(leaves, b) {
            return false;
        }
    }
    true
}

pub fn blocks_ok(leaves: &[u32], sums: &[u64]) -> bool
    ensures { result ≡ (leaves_ok leaves.now && sums_ok leaves.now sums.now) }
{
    leaves_ok(leaves) && sums_ok(leaves, sums)
}

// Sums added in pairs, pairs of pairs and so on, from one number up to another. `size` is the number of sums that such a
// pair can have, a power of two; a pair without a second half goes up unchanged.
fn add_pairs(sums: &[u64], size: usize, from: usize, to: usize) -> u64
    requires { Adding sums.now size from to }
    ensures { leaf_start sums.now from + result ≡ leaf_start sums.now to }
{
    if to - from < 2 {
        return sums[from];
    }
    let half = size / 2 + size % 2;
    if to - from <= half {
        return add_pairs(sums, half, from, to);
    }
    add_pairs(sums, half, from, from + half) + add_pairs(sums, half, from + half, to)
}

// N, from the blocks' sums.
pub fn total(sums: &[u64]) -> u64
    requires { AllSums sums.now }
    ensures { result ≡ pair_total sums.now }
{
    add_pairs(sums, 4096, 0, sums.len())
}
