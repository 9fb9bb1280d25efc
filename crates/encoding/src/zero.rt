// The zero test of a long slice.
ghost use Rattle.std.specs.Prelude.{◌≡◌, ◌+◌, ◌≤◌, length};
ghost use Rattle.encoding.specs.Below.{all_below};
ghost use Rattle.encoding.specs.Words.{zero_at, all_zero};

use crate::bytes::read_u64;

// Whether the 64 bytes from `at` are 0.
fn zero64(bs: &[u8], at: usize) -> bool
    requires { at + 64 ≤ length bs.now }
    ensures { result ≡ all_below 64 (λ i. zero_at bs.now (at + i)) }
{
    (read_u64(bs, at) == 0)
        & (read_u64(bs, at + 8) == 0)
        & (read_u64(bs, at + 16) == 0)
        & (read_u64(bs, at + 24) == 0)
        & (read_u64(bs, at + 32) == 0)
        & (read_u64(bs, at + 40) == 0)
        & (read_u64(bs, at + 48) == 0)
        & (read_u64(bs, at + 56) == 0)
}

pub fn all_zero(bs: &[u8]) -> bool
    ensures { result ≡ all_zero bs.now }
{
    let blocks = bs.len() / 64;
    for block in 0..blocks {
        if !zero64(bs, 64 * block) {
            return false;
        }
    }
    for i in 64 * blocks..bs.len() {
        if bs[i] != 0 {
            return false;
        }
    }
    true
}
