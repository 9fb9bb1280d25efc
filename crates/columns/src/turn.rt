// Records turned into columns and back, in squares of 16 records and 16 columns; up to 2,048 records at a time, so that what is read stays in cache and what is written has long runs.
ghost use Rattle.std.specs.Prelude.{◌≡◌, ◌+◌, ◌≤◌, ◌<◌, length};
ghost use Rattle.encoding.specs.Pieces.{splice};
ghost use Rattle.part.specs.Part.{part_count, part_ghost_count};
ghost use Rattle.columns_read.specs.Columns.{part_columns, columns_part};
ghost use Rattle.columns.specs.Means.{Line, Lines, line_of, band_of, Shuffled, Moved, Turnable};
ghost use Rattle.columns.specs.MeansGrids.{InGrid, Turns, Carried};

use encoding::bytes::{read_u64, write_u64};

// Moves `count` bytes: the one at `from` and each `step` behind it, to `to` and each `gap` behind it.
fn line(src: &[u8], from: usize, step: usize, dst: &mut [u8], to: usize, gap: usize, count: usize)
    requires { Line src.now from step count × Line dst.old to gap count }
    ensures { dst.new ≡ line_of src.now from step dst.old to gap count }
{
    for i in 0..count {
        dst[to + gap * i] = src[from + step * i];
    }
}

// Where bytes stand: that of record i in column j at start + step i + leap j.
#[derive(Clone, Copy)]
pub struct Grid {
    pub start: usize,
    pub step: usize,
    pub leap: usize,
}

// Moves `width` columns of `count` records, column by column.
fn lines(src: &[u8], from: Grid, dst: &mut [u8], to: Grid, count: usize, width: usize)
    requires { InGrid src.now from count width × InGrid dst.old to count width × (0 < count) }
    ensures { dst.new ≡ band_of src.now from.start from.step from.leap dst.old to.start to.step to.leap count width }
{
    for j in 0..width {
        line(
            src,
            from.start + from.leap * j,
            from.step,
            &mut *dst,
            to.start + to.leap * j,
            to.step,
            count,
        );
    }
}

// Moves 16 bytes, as words: with `copy_from_slice` a whole part takes 15 % longer.
fn copy16(src: &[u8], from: usize, dst: &mut [u8], to: usize)
    requires { Line src.now from 1 16 × Line dst.old to 1 16 }
    ensures { dst.new ≡ line_of src.now from 1 dst.old to 1 16 }
{
    let low = read_u64(src, from);
    let high = read_u64(src, from + 8);
    write_u64(&mut *dst, to, low);
    write_u64(&mut *dst, to + 8, high);
}

// Moves 16 rows of 16 bytes, each `leap` behind the one before, to `to` and each `span` behind it: `lines` by words.
fn rows(src: &[u8], from: usize, leap: usize, dst: &mut [u8], to: usize, span: usize)
    requires { Lines src.now from 1 leap 16 16 × Lines dst.old to 1 span 16 16 }
    ensures { dst.new ≡ band_of src.now from 1 leap dst.old to 1 span 16 16 }
{
    for j in 0..16 {
        copy16(src, from + leap * j, &mut *dst, to + span * j);
    }
}

// The bytes of the two halves in turns: the highest bit of an index of 8 bits becomes the lowest. The compiler makes instructions for 16 bytes of it.
fn shuffle(x: &[u8], y: &mut [u8])
    requires { (length x.now ≡ 256) × (length y.old ≡ 256) }
    ensures { Shuffled x.now y.new 128 }
{
    for i in 0..128 {
        y[2 * i] = x[i];
        y[2 * i + 1] = x[i + 128];
    }
}

// Byte j of row i of 16 stands at from + j + leap i, and goes to to + span j + i: four shuffles exchange the row and the place in it.
fn square(src: &[u8], from: usize, leap: usize, dst: &mut [u8], to: usize, span: usize)
    requires { Lines src.now from 1 leap 16 16 × Lines dst.old to 1 span 16 16 }
    ensures { Moved src.now from leap 1 dst.old dst.new to 1 span 16 16 }
{
    let mut x = [0u8; 256];
    let mut y = [0u8; 256];
    rows(src, from, leap, &mut x, 0, 16);
    shuffle(&x, &mut y);
    shuffle(&y, &mut x);
    shuffle(&x, &mut y);
    shuffle(&y, &mut x);
    rows(&x, 0, 16, &mut *dst, to, span);
}

// 16 columns, in squares of 16 records: the last one begins earlier where fewer are left. One of step and leap is 1 on either side, and not on both the same.
fn strip(src: &[u8], from: Grid, dst: &mut [u8], to: Grid, count: usize)
    requires { Turns from to × InGrid src.now from count 16 × InGrid dst.old to count 16 × (16 ≤ count) }
    ensures { Carried src.now from dst.old dst.new to count 16 }
{
    for i in (0..count).step_by(16) {
        let k = i.min(count - 16);
        square(
            src,
            from.start + from.step * k,
            from.step * from.leap,
            &mut *dst,
            to.start + to.step * k,
            to.step * to.leap,
        );
    }
}

// `width` columns, 16 at a time. As `strip` along the other side: as one loop in another, their invariants would nest.
fn band(src: &[u8], from: Grid, dst: &mut [u8], to: Grid, count: usize, width: usize)
    requires { Turns from to × InGrid src.now from count width × InGrid dst.old to count width × (16 ≤ count) × (16 ≤ width) }
    ensures { Carried src.now from dst.old dst.new to count width }
{
    for j in (0..width).step_by(16) {
        let k = j.min(width - 16);
        let source = Grid {
            start: from.start + from.leap * k,
            ..from
        };
        let target = Grid {
            start: to.start + to.leap * k,
            ..to
        };
        strip(src, source, &mut *dst, target, count);
    }
}

// All records, up to 2,048 at a time.
fn turn(src: &[u8], from: Grid, dst: &mut [u8], to: Grid, count: usize, width: usize)
    requires { Turns from to × InGrid src.now from count width × InGrid dst.old to count width × (16 ≤ width) }
    ensures { Carried src.now from dst.old dst.new to count width }
{
    if count == 0 {
        return;
    }
    if count < 16 {
        lines(src, from, &mut *dst, to, count, width);
        return;
    }
    let mut i = 0;
    // a `while`: up to 2,048 records a turn, and the last 16 may overlap those before
    while i < count {
        let k = i.min(count - 16);
        let some = (count - k).min(2048);
        let source = Grid {
            start: from.start + from.step * k,
            ..from
        };
        let target = Grid {
            start: to.start + to.step * k,
            ..to
        };
        band(src, source, &mut *dst, target, some, width);
        i = k + some;
    }
}

fn spread(start: usize, step: usize, leap: usize) -> Grid
    ensures { result ≡ record { start = start; step = step; leap = leap } }
{
    Grid { start, step, leap }
}

// Writes the column file of a part of its length.
pub fn write_columns(part: &[u8], out: &mut [u8])
    requires { Turnable part.now out.old (part_count part.now) (part_ghost_count part.now) }
    ensures { out.new ≡ splice out.old 0 (part_columns part.now) }
{
    let n = part::layout::tree_count(part) as usize;
    let g = part::layout::ghost_count(part) as usize;
    let ghosts = 32 + 64 * n;
    line(part, 0, 1, &mut *out, 0, 1, 32);
    let to = spread(32, 1, n);
    turn(part, spread(32, 64, 1), &mut *out, to, n, 64);
    let to = spread(ghosts, 1, g);
    turn(part, spread(ghosts, 40, 1), &mut *out, to, g, 40);
}

// Writes the part of a column file of its length.
pub fn write_part(file: &[u8], out: &mut [u8])
    requires { Turnable file.now out.old (part_count file.now) (part_ghost_count file.now) }
    ensures { out.new ≡ splice out.old 0 (columns_part file.now) }
{
    let n = part::layout::tree_count(file) as usize;
    let g = part::layout::ghost_count(file) as usize;
    let ghosts = 32 + 64 * n;
    line(file, 0, 1, &mut *out, 0, 1, 32);
    let from = spread(32, 1, n);
    turn(file, from, &mut *out, spread(32, 64, 1), n, 64);
    let from = spread(ghosts, 1, g);
    turn(file, from, &mut *out, spread(ghosts, 40, 1), g, 40);
}
