// Bits of a word.
ghost use Rattle.std.specs.Prelude.{◌≡◌, ◌≤◌, ◌<◌};
ghost use Rattle.encoding.specs.Below.{count_below};
ghost use Rattle.bits.specs.Bits.{bit_of, with_bit};

// Bit b of a word.
pub fn bit(w: u64, b: u32) -> bool
    requires { b < 64 }
    ensures { result ≡ bit_of w b }
{
    (w >> b) % 2 == 1
}

// The word with bit b set.
pub fn with_bit(w: u64, b: u32) -> u64
    requires { b < 64 }
    ensures { result ≡ with_bit w b }
{
    w | (1 << b)
}

// How many bits of a word are set.
pub fn ones(w: u64) -> u32
    ensures { (result ≡ count_below 64 (bit_of w)) × (result ≤ 64) }
{
    u64::count_ones(w)
}
