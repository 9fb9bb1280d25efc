// Where the ranks' shares of the leaves begin.
ghost use Rattle.std.specs.Prelude.{◌≡◌, ◌≤◌, ◌<◌, ◌^◌};
ghost use Rattle.leaf_shares.specs.Leaves.{cut};

// The share v of w of n leaves, rounded up, without a product that wraps.
pub fn cut(n: u64, v: u64, w: u64) -> u64
    requires { (0 < w) × (v ≤ w) × (w < 2 ^ 32) }
    ensures { (result ≡ cut n v w) × (result ≤ n) }
{
    (n / w) * v + ((n % w) * v + (w - 1)) / w
}
