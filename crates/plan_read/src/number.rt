// Numbers in the input.
ghost use Rattle.std.specs.Prelude.{◌≡◌, ◌+◌, ◌-◌, ◌≤◌, ◌<◌, length};
ghost use Rattle.encoding.specs.Pieces.{piece};
ghost use Rattle.plan_read.specs.Means.{byte_at, digit_count, value_of, read_number, negated, read_entry, numeral_of, digit_count_ok};

// A number, where one was read, and the place behind its digits.
#[derive(Clone, Copy)]
pub struct Numeral {
    pub value: Option<u64>,
    pub next: usize,
}

// The byte at a place; 0 past the end.
pub fn byte_at(text: &[u8], at: usize) -> u8
    ensures { result ≡ byte_at text.now at }
{
    text.get(at).copied().unwrap_or(0)
}

// How many digits stand from a place on.
fn digit_count(text: &[u8], at: usize) -> usize
    ensures { (result ≡ digit_count text.now at) × (result ≤ length text.now - at) }
{
    for i in at..text.len() {
        if !text[i].is_ascii_digit() {
            return i - at;
        }
    }
    text.len().saturating_sub(at)
}

// A count of digits that a number may have, where b is the first.
fn digit_count_ok(n: usize, b: u8) -> bool
    ensures { result ≡ digit_count_ok n b }
{
    (1 <= n) & (n <= 8) & ((n == 1) | (b != b'0'))
}

// The number that at most 8 digits stand for.
fn digits_value(text: &[u8], at: usize, n: usize) -> u64
    requires { (n ≡ digit_count text.now at) × (at + n ≤ length text.now) × (n ≤ 8) }
    ensures { result ≡ value_of 0 (piece text.now at n) }
{
    let mut v: u64 = 0;
    for &b in &text[at..at + n] {
        v = 10 * v + (b - b'0') as u64;
    }
    v
}

pub fn read_number(text: &[u8], at: usize) -> Numeral
    ensures { numeral_of result ≡ read_number text.now at }
{
    let n = digit_count(text, at);
    let next = at + n;
    if !digit_count_ok(n, byte_at(text, at)) {
        return Numeral { value: None, next };
    }
    Numeral {
        value: Some(digits_value(text, at, n)),
        next,
    }
}

// The number behind a minus sign, as its 64 bits.
fn negated(n: Numeral) -> Numeral
    ensures { numeral_of result ≡ negated (numeral_of n) }
{
    let Some(v) = n.value else {
        return n;
    };
    if v == 0 {
        return Numeral {
            value: None,
            next: n.next,
        };
    }
    Numeral {
        value: Some(u64::MAX - v + 1),
        next: n.next,
    }
}

// An entry of a table.
pub fn read_entry(text: &[u8], at: usize) -> Numeral
    ensures { numeral_of result ≡ read_entry text.now at }
{
    if byte_at(text, at) == b'-' {
        return negated(read_number(text, at + 1));
    }
    read_number(text, at)
}
