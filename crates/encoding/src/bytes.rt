// Little-endian numbers in lent bytes.
ghost use Rattle.std.specs.Prelude.{◌≡◌, ◌+◌, ◌*◌, ◌≤◌, length};
ghost use Rattle.encoding.specs.Numbers.{u32_at, u64_at, put_u32, put_u64};

pub fn read_u32(bs: &[u8], at: usize) -> u32
    requires { at + 4 ≤ length bs.now }
    ensures { result ≡ u32_at bs.now at }
{
    u32::from_le_bytes([bs[at], bs[at + 1], bs[at + 2], bs[at + 3]])
}

pub fn read_u64(bs: &[u8], at: usize) -> u64
    requires { at + 8 ≤ length bs.now }
    ensures { result ≡ u64_at bs.now at }
{
    let low = read_u32(bs, at) as u64;
    let high = read_u32(bs, at + 4) as u64;
    low + 4294967296 * high
}

pub fn write_u32(bs: &mut [u8], at: usize, v: u32)
    requires { at + 4 ≤ length bs.old }
    ensures { bs.new ≡ put_u32 bs.old at v }
{
    let [a, b, c, d] = v.to_le_bytes();
    bs[at] = a;
    bs[at + 1] = b;
    bs[at + 2] = c;
    bs[at + 3] = d;
}

pub fn write_u64(bs: &mut [u8], at: usize, v: u64)
    requires { at + 8 ≤ length bs.old }
    ensures { bs.new ≡ put_u64 bs.old at v }
{
    write_u32(&mut *bs, at, (v % 4294967296) as u32);
    write_u32(&mut *bs, at + 4, (v / 4294967296) as u32);
}

// Copies so many words of 8 bytes. A loop, and not `copy_from_slice`: that calls `memmove`, which an archive for C would need from outside.
pub fn copy_words(dst: &mut [u8], src: &[u8], words: usize)
    requires { (length src.now ≡ 8 * words) × (length dst.old ≡ 8 * words) }
    ensures { dst.new ≡ src.now }
{
    for i in 0..words {
        let word = read_u64(src, 8 * i);
        write_u64(&mut *dst, 8 * i, word);
    }
}
