// Sets of numbers as words of 64 bits: bit k mod 64 of word k div 64 is set for a member k.
ghost use Rattle.std.specs.Prelude.{◌≡◌, ◌*◌, ◌≤◌, ◌<◌, ◌^◌, length};
ghost use Rattle.bits.specs.Bits.{in_set, with_member, least_from};

use crate::word::{bit, with_bit};

// Whether k is a member.
pub fn in_set(ws: &[u64], k: u32) -> bool
    requires { k < 64 * length ws.now }
    ensures { result ≡ in_set ws.now k }
{
    bit(ws[(k / 64) as usize], k % 64)
}

// Makes k a member.
pub fn add_member(ws: &mut [u64], k: u32)
    requires { k < 64 * length ws.old }
    ensures { ws.new ≡ with_member ws.old k }
{
    let i = (k / 64) as usize;
    ws[i] = with_bit(ws[i], k % 64);
}

// The least member from k on, and 64 times the number of words where there is none; a k past that is its own answer. One turn a word, and whole words behind the first: a set with few members is gone through twice as fast.
pub fn next_member(ws: &[u64], k: u32) -> u32
    requires { length ws.now ≤ 2 ^ 20 }
    ensures { result ≡ least_from (64 * length ws.now) k (in_set ws.now) }
{
    let n = 64 * (ws.len() as u32);
    if n <= k {
        return k;
    }
    let rest = ws[(k / 64) as usize] >> (k % 64);
    if rest != 0 {
        return k + u64::trailing_zeros(rest);
    }
    for i in (k / 64) as usize + 1..ws.len() {
        let word = ws[i];
        if word != 0 {
            return 64 * (i as u32) + u64::trailing_zeros(word);
        }
    }
    n
}
