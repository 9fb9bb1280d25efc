// The weights of ranks of unequal speed, and writing the table that they give.
ghost use Rattle.std.specs.Prelude.{◌≡◌, true, ◌<◌, length};
ghost use Rattle.encoding.specs.Pieces.{splice};
ghost use Rattle.offsets.specs.Limits.{rank_count_ok};
ghost use Rattle.leaves.specs.Weighted.{weight_total, weights_ok, weighted_table};
ghost use Rattle.leaves.specs.Means.{WeightedWritable};

use encoding::bytes::write_u64;
use leaf_shares::shares::cut;
use leaf_shares::table::{Walk, put_rank};

// W.
fn total(weights: &[u32]) -> u64
    requires { rank_count_ok (length weights.now) ≡ true }
    ensures { result ≡ weight_total weights.now }
{
    let mut w: u64 = 0;
    for &x in weights {
        w += x as u64;
    }
    w
}

pub fn weights_ok(weights: &[u32]) -> bool
    requires { rank_count_ok (length weights.now) ≡ true }
    ensures { result ≡ weights_ok weights.now }
{
    for &x in weights {
        if 65535 < x {
            return false;
        }
    }
    0 < total(weights)
}

// The table of unequal shares of the n leaves, at the start of `out`. v is the sum of the weights so far. It stands beside leaf_shares::table::write: the bounds come from a running sum here, and one function for both would need a closure with a contract.
pub fn write(weights: &[u32], leaves: &[u32], n: u64, out: &mut [u8])
    requires { WeightedWritable weights.now leaves.now n out.old }
    ensures { out.new ≡ splice out.old 0 (weighted_table weights.now leaves.now) }
{
    let w = total(weights);
    let mut at = Walk { tree: 0, start: 0 };
    let mut v: u64 = 0;
    let mut lo: u64 = 0;
    for (p, &x) in weights.iter().enumerate() {
        v += x as u64;
        let hi = cut(n, v, w);
        at = put_rank(leaves, at, lo, hi, p, &mut *out);
        lo = hi;
    }
    write_u64(&mut *out, 8 * weights.len(), leaves.len() as u64);
}
