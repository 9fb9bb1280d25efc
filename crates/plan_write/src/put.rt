// Numbers, words and lines.
ghost use Rattle.std.specs.Prelude.{◌≡◌, [], ◌∷◌, ◌≤◌, ◌<◌, length};
ghost use Rattle.plan_read.specs.Text.{decimal, number_limit};
ghost use Rattle.plan_write.specs.Moves.{line_text};
ghost use Rattle.plan_write.specs.Means.{Put, Fits, FitsNumber, number_text};

fn put_byte(out: &mut [u8], at: usize, b: u8) -> usize
    requires { Fits out.old at (b ∷ []) }
    ensures { Put out.old out.new at result (b ∷ []) }
{
    out[at] = b;
    at + 1
}

// How many digits a number has.
pub fn decimal_length(n: u64) -> usize
    requires { n < number_limit }
    ensures { (result ≡ length (decimal n)) × (result ≤ 8) }
{
    let mut count: usize = 1;
    let mut m = n;
    // one digit fewer each time
    while 10 <= m {
        m /= 10;
        count += 1;
    }
    count
}

fn put_decimal(out: &mut [u8], at: usize, n: u64) -> usize
    requires { FitsNumber out.old at n (decimal n) }
    ensures { Put out.old out.new at result (decimal n) }
{
    if n < 10 {
        return put_byte(&mut *out, at, b'0' + n as u8);
    }
    let next = put_decimal(&mut *out, at, n / 10);
    put_byte(&mut *out, next, b'0' + (n % 10) as u8)
}

// A number and the byte behind it.
pub fn put_number(out: &mut [u8], at: usize, n: u64, end: u8) -> usize
    requires { FitsNumber out.old at n (number_text n end) }
    ensures { Put out.old out.new at result (number_text n end) }
{
    let next = put_decimal(&mut *out, at, n);
    put_byte(&mut *out, next, end)
}

pub fn put_word(out: &mut [u8], at: usize, word: &[u8]) -> usize
    requires { Fits out.old at word.now }
    ensures { Put out.old out.new at result word.now }
{
    let next = at + word.len();
    out[at..next].copy_from_slice(word);
    next
}

// A line of a word and a number.
pub fn put_line(out: &mut [u8], at: usize, word: &[u8], n: u64) -> usize
    requires { FitsNumber out.old at n (line_text word.now n) }
    ensures { Put out.old out.new at result (line_text word.now n) }
{
    let next = put_word(&mut *out, at, word);
    put_number(&mut *out, next, n, b'\n')
}

// How long a line of a word and a number is.
pub fn line_length(word: &[u8], n: u64) -> usize
    requires { (length word.now ≤ 9) × (n < number_limit) }
    ensures { (result ≡ length (line_text word.now n)) × (result ≤ 18) }
{
    word.len() + decimal_length(n) + 1
}
