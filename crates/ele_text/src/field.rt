// Fields of a line, and their numbers.
ghost use Rattle.std.specs.Prelude.{◌≡◌, ◌≤◌, length};
ghost use Rattle.ele_text.specs.Means.{until_either, numeral_of};

// How many bytes stand before the first that is x or y.
pub fn until_either(x: u8, y: u8, s: &[u8]) -> usize
    ensures { (result ≡ until_either x y s.now) × (result ≤ length s.now) }
{
    // `position` with a closure over x and y: the search doesn't prove what it gives
    for (i, b) in s.iter().enumerate() {
        if (*b == x) | (*b == y) {
            return i;
        }
    }
    s.len()
}

// The number of a field of 1 to 8 digits.
pub fn read_number(s: &[u8]) -> Option<u32>
    ensures { result ≡ numeral_of s.now }
{
    if !(1..=8).contains(&s.len()) {
        return None;
    }
    let mut v: u32 = 0;
    for b in s {
        if !b.is_ascii_digit() {
            return None;
        }
        v = 10 * v + ((*b - b'0') as u32);
    }
    Some(v)
}
