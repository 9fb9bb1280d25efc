// Records of 40 and 64 bytes, moved as words: all loads first, then all stores. Each length has its own functions, and no loop: `copy_from_slice` took 1.3 to 1.9 times as long, `copy_within` 1.5 times, and loops over arrays of words 1.2 to 2 times.
ghost use Rattle.std.specs.Prelude.{◌≡◌, ◌+◌, ◌≤◌, length};
ghost use Rattle.encoding.specs.Pieces.{piece, splice};
ghost use Rattle.encoding.specs.Words.{bytes40, bytes64};

use crate::bytes::{read_u64, write_u64};

// A record of 40 bytes as words.
#[derive(Clone, Copy)]
pub struct Words40 {
    pub w0: u64,
    pub w1: u64,
    pub w2: u64,
    pub w3: u64,
    pub w4: u64,
}

// A record of 64 bytes: a core of 40 bytes and three words more.
#[derive(Clone, Copy)]
pub struct Words64 {
    pub core: Words40,
    pub w5: u64,
    pub w6: u64,
    pub w7: u64,
}

pub fn load40(bs: &[u8], at: usize) -> Words40
    requires { at + 40 ≤ length bs.now }
    ensures { bytes40 result ≡ piece bs.now at 40 }
{
    let w0 = read_u64(bs, at);
    let w1 = read_u64(bs, at + 8);
    let w2 = read_u64(bs, at + 16);
    let w3 = read_u64(bs, at + 24);
    let w4 = read_u64(bs, at + 32);
    Words40 { w0, w1, w2, w3, w4 }
}

pub fn load64(bs: &[u8], at: usize) -> Words64
    requires { at + 64 ≤ length bs.now }
    ensures { bytes64 result ≡ piece bs.now at 64 }
{
    let core = load40(bs, at);
    let w5 = read_u64(bs, at + 40);
    let w6 = read_u64(bs, at + 48);
    let w7 = read_u64(bs, at + 56);
    Words64 { core, w5, w6, w7 }
}

pub fn store40(bs: &mut [u8], at: usize, r: Words40)
    requires { at + 40 ≤ length bs.old }
    ensures { bs.new ≡ splice bs.old at (bytes40 r) }
{
    write_u64(&mut *bs, at, r.w0);
    write_u64(&mut *bs, at + 8, r.w1);
    write_u64(&mut *bs, at + 16, r.w2);
    write_u64(&mut *bs, at + 24, r.w3);
    write_u64(&mut *bs, at + 32, r.w4);
}

pub fn store64(bs: &mut [u8], at: usize, r: Words64)
    requires { at + 64 ≤ length bs.old }
    ensures { bs.new ≡ splice bs.old at (bytes64 r) }
{
    let core = r.core;
    store40(&mut *bs, at, core);
    write_u64(&mut *bs, at + 40, r.w5);
    write_u64(&mut *bs, at + 48, r.w6);
    write_u64(&mut *bs, at + 56, r.w7);
}

pub fn copy40(src: &[u8], from: usize, dst: &mut [u8], to: usize)
    requires { (from + 40 ≤ length src.now) × (to + 40 ≤ length dst.old) }
    ensures { dst.new ≡ splice dst.old to (piece src.now from 40) }
{
    let r = load40(src, from);
    store40(&mut *dst, to, r);
}

pub fn copy64(src: &[u8], from: usize, dst: &mut [u8], to: usize)
    requires { (from + 64 ≤ length src.now) × (to + 64 ≤ length dst.old) }
    ensures { dst.new ≡ splice dst.old to (piece src.now from 64) }
{
    let r = load64(src, from);
    store64(&mut *dst, to, r);
}

// Within one buffer. The places may overlap.
pub fn move40(bs: &mut [u8], from: usize, to: usize)
    requires { (from + 40 ≤ length bs.old) × (to + 40 ≤ length bs.old) }
    ensures { bs.new ≡ splice bs.old to (piece bs.old from 40) }
{
    let r = load40(&*bs, from);
    store40(&mut *bs, to, r);
}
