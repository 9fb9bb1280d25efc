// Leaf counts, one for each tree.
ghost use Rattle.std.specs.Prelude.{◌≡◌, true, ◌+◌, ◌≤◌, ◌<◌, ◌^◌, length};
ghost use Rattle.leaf_shares.specs.Leaves.{leaves_ok, leaf_start, leaf_total};
ghost use Rattle.leaf_shares.specs.Means.{count_ok};

use offsets::table::tree_count_ok;

fn count_ok(x: u32) -> bool
    ensures { result ≡ count_ok x }
{
    (1 <= x) & (x <= 16777216)
}

// All counts are looked at, whatever the first ones are: without an early end the loop goes by wide loads.
pub fn leaves_ok(leaves: &[u32]) -> bool
    ensures { result ≡ leaves_ok leaves.now }
{
    if !tree_count_ok(leaves.len() as u64) {
        return false;
    }
    let mut ok = true;
    for &x in leaves {
        ok &= count_ok(x);
    }
    ok
}

// The leaves of the trees from one up to, but without, another.
pub fn sum(leaves: &[u32], from: usize, to: usize) -> u64
    requires { (leaves_ok leaves.now ≡ true) × (from ≤ to) × (to ≤ length leaves.now) }
    ensures { leaf_start leaves.now from + result ≡ leaf_start leaves.now to }
{
    let mut n: u64 = 0;
    for &x in &leaves[from..to] {
        n += x as u64;
    }
    n
}

// N.
pub fn total(leaves: &[u32]) -> u64
    requires { leaves_ok leaves.now ≡ true }
    ensures { (result ≡ leaf_total leaves.now) × (result ≤ 2 ^ 44) }
{
    sum(leaves, 0, leaves.len())
}
