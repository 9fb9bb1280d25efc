// Trees behind each other that are alike, as in the rows of a brick: the same shape, code and so on, and numbers that count up. What is found of one then holds of all. Bytes of a column stand side by side, so that these tests are made for many trees at once.
ghost use Rattle.std.specs.Prelude.{Bool, ◌≡◌, ℕ, ◌+◌, ◌*◌, ◌<◌, ◌≤◌, length, if◌then◌else◌, slice_index};
ghost use Rattle.records.specs.Record.{core_size};
ghost use Rattle.columns_read.specs.Columns.{spaced};
ghost use Rattle.columns_read.specs.Means.{same_byte, counts_on, side_run, head_run, Run};
ghost use Rattle.columns_read.specs.MeansFiles.{Laid, head_of, Alike};

use crate::file::Columns;
use crate::read::{bare, byte, word};
use mesh::link::parted;
use records::shape::face_count;
use std::num::wrapping_add_u8;

fn same_byte(bs: &[u8], at: usize, step: u32, j: u32, k: usize) -> bool
    requires { (at + k + step * 39 < length bs.now) × (j < 40) }
    ensures { result ≡ same_byte (spaced bs.now at step core_size) (spaced bs.now (at + k) step core_size) j }
{
    bare(bs, at + k, step, j) == bare(bs, at, step, j)
}

// The number at byte j is k more, where its lowest byte has room for that.
fn counts_on(bs: &[u8], at: usize, step: u32, j: u32, k: usize) -> bool
    requires { (at + k + step * 39 < length bs.now) × (j ≤ 36) × (k < 256) }
    ensures { result ≡ counts_on (spaced bs.now at step core_size) (spaced bs.now (at + k) step core_size) j k }
{
    (bare(bs, at + k, step, j) == wrapping_add_u8(bare(bs, at, step, j), k as u8))
        & (same_byte(bs, at, step, j + 1, k)
            & (same_byte(bs, at, step, j + 2, k) & same_byte(bs, at, step, j + 3, k)))
}

// Whether record k behind the one at `at` has its shape and its code of the face, and the neighbour k behind.
fn side_like(bs: &[u8], at: usize, step: u32, face: u32, k: usize) -> bool
    requires { (at + k + step * 39 < length bs.now) × (face < 6) × (k < 256) }
    ensures { result ≡ side_run bs.now at step face k }
{
    counts_on(bs, at, step, 8 + 4 * face, k)
        & (same_byte(bs, at, step, 32 + face, k) & same_byte(bs, at, step, 4, k))
}

// Whether record k behind the one at `at` has the number k behind, and the same bytes outside number and faces.
fn head_like(bs: &[u8], at: usize, step: u32, k: usize) -> bool
    requires { (at + k + step * 39 < length bs.now) × (k < 256) }
    ensures { result ≡ head_run bs.now at step k }
{
    counts_on(bs, at, step, 0, k)
        & (same_byte(bs, at, step, 4, k)
            & (same_byte(bs, at, step, 5, k)
                & (same_byte(bs, at, step, 6, k)
                    & (same_byte(bs, at, step, 7, k)
                        & (same_byte(bs, at, step, 38, k) & same_byte(bs, at, step, 39, k))))))
}

// How many of up to 64 records can count on from a lowest byte.
fn room(low: u8) -> u8
    ensures { (result ≤ 64) × (low + result < 256) }
{
    (255 - low).min(64)
}

// How many of the 64 records behind one are like it, where `like` says whether record k behind is, and the number that counts on has the lowest byte `low`. The loop has no exit, so that the compiler makes the tests of many records at once.
fn alike<F: Fn(usize) -> bool>(low: u8, like: F) -> u8
    requires { (k : ℕ) → 0 < k → k ≤ 64 → F.pre like k }
    ensures { (test : ℕ → Bool) → ((k : ℕ) (b : Bool) → F.post like k b → b ≡ test k) → Run test low result 64 }
{
    let mut some = room(low);
    for i in 0..64 {
        let most = if like(i + 1) { 64 } else { i as u8 };
        some = some.min(most);
    }
    some
}

fn sides_like(bs: &[u8], at: usize, step: u32, face: u32) -> u8
    requires { (at + 64 + step * 39 < length bs.now) × (face < 6) }
    ensures { Run (side_run bs.now at step face) (slice_index (spaced bs.now at step core_size) (8 + 4 * face)) result 64 }
{
    if !side_like(bs, at, step, face, 1) {
        return 0;
    }
    alike(
        bare(bs, at, step, 8 + 4 * face),
        |k| side_like(bs, at, step, face, k),
    )
}

fn heads_like(bs: &[u8], at: usize, step: u32) -> u8
    requires { at + 64 + step * 39 < length bs.now }
    ensures { Run (head_run bs.now at step) (slice_index (spaced bs.now at step core_size) 0) result 64 }
{
    alike(bare(bs, at, step, 0), |k| head_like(bs, at, step, k))
}

// How many trees behind tree i are like it in a face, and so are their neighbours, if its link is followed.
pub fn sides_on(columns: &Columns, i: u32, face: u32) -> u32
    requires { Laid columns.now × (i < columns.now.count) × (face < 6) }
    ensures { Alike columns.now face i result }
{
    let file = columns.file;
    let count = columns.count;
    if count - i <= 64 {
        return 0;
    }
    let at = 32 + (i as usize);
    let own = sides_like(file, at, count, face);
    if own == 0 {
        return 0;
    }
    let j = word(file, at, count, 8 + 4 * face);
    if count - 64 <= j {
        return 0;
    }
    if face_count(byte(file, at, count, 4)) <= face {
        return 0;
    }
    if i < j {
        return own as u32;
    }
    let across = parted(columns.dimension, byte(file, at, count, 32 + face));
    let there = across.face;
    let others = sides_like(file, 32 + (j as usize), count, there);
    own.min(others) as u32
}

// How many trees behind tree i are in form, their faces apart, where it is.
pub fn heads_on(columns: &Columns, i: u32) -> u32
    requires { Laid columns.now × (i < columns.now.count) }
    ensures { (i + result < columns.now.count) × ((k : ℕ) → k ≤ result → head_of columns.now (i + k) ≡ head_of columns.now i) }
{
    if columns.count - i <= 64 {
        return 0;
    }
    heads_like(columns.file, 32 + (i as usize), columns.count) as u32
}
