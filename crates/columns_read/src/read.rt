// Records stored by columns, read in place: the bytes of a core stand at `at` and each `step` behind.
ghost use Rattle.std.specs.Prelude.{◌≡◌, ◌+◌, ◌*◌, ◌<◌, ◌≤◌, ◌&&◌, length, slice_index};
ghost use Rattle.encoding.specs.Numbers.{u32_at};
ghost use Rattle.records.specs.Record.{core_size};
ghost use Rattle.records.specs.Means.{face_form};
ghost use Rattle.mesh.specs.Link.{orientation_ok};
ghost use Rattle.mesh.specs.Means.{link_by_dimension};
ghost use Rattle.columns_read.specs.Columns.{spaced};
ghost use Rattle.columns_read.specs.Means.{head_ok};

use mesh::link::{corners_fit, parted};

// Byte j of the core.
pub fn bare(bs: &[u8], at: usize, step: u32, j: u32) -> u8
    requires { (at + step * 39 < length bs.now) × (j < 40) }
    ensures { result ≡ slice_index (spaced bs.now at step core_size) j }
{
    bs[at + (step as usize) * (j as usize)]
}

pub fn byte(bs: &[u8], at: usize, step: u32, j: u32) -> u32
    requires { (at + step * 39 < length bs.now) × (j < 40) }
    ensures { (result ≡ slice_index (spaced bs.now at step core_size) j) × (result < 256) }
{
    u32::from(bare(bs, at, step, j))
}

// The number of 32 bits at byte j.
pub fn word(bs: &[u8], at: usize, step: u32, j: u32) -> u32
    requires { (at + step * 39 < length bs.now) × (j ≤ 36) }
    ensures { result ≡ u32_at (spaced bs.now at step core_size) j }
{
    byte(bs, at, step, j)
        + 256 * byte(bs, at, step, j + 1)
        + 65536 * byte(bs, at, step, j + 2)
        + 16777216 * byte(bs, at, step, j + 3)
}

// The record but its number and its faces.
pub fn head_ok(bs: &[u8], at: usize, step: u32, dimension: u32) -> bool
    requires { at + step * 39 < length bs.now }
    ensures { result ≡ head_ok dimension (spaced bs.now at step core_size) }
{
    let shape = byte(bs, at, step, 4);
    records::shape::shape_ok(shape)
        & (records::shape::dimension_of(shape) == dimension)
        & ((byte(bs, at, step, 5) == 0)
            & (byte(bs, at, step, 6) == 0)
            & (byte(bs, at, step, 7) == 0))
        & (byte(bs, at, step, 38) + 256 * byte(bs, at, step, 39) < records::form::REGIONS)
}

// Whether a face is in form. F is asked only where the neighbour is the record itself.
pub fn face_ok(bs: &[u8], at: usize, step: u32, own: u32, face: u32) -> bool
    requires { (at + step * 39 < length bs.now) × (face < 6) }
    ensures { result ≡ face_form own (spaced bs.now at step core_size) face }
{
    let shape = byte(bs, at, step, 4);
    let neighbour = word(bs, at, step, 8 + 4 * face);
    let code = byte(bs, at, step, 32 + face);
    if records::shape::face_count(shape) <= face {
        return (neighbour == records::form::UNUSED) & (code == 0);
    }
    if neighbour != own {
        return true;
    }
    let faces = records::shape::faces_in(records::shape::dimension_of(shape));
    if code % faces != face {
        return true;
    }
    code / faces == 0
}

// The orientation of a link is below the corners of the face.
pub fn orientation_ok(bs: &[u8], at: usize, step: u32, face: u32) -> bool
    requires { (at + step * 39 < length bs.now) × (face < 6) }
    ensures { result ≡ orientation_ok (spaced bs.now at step core_size) face }
{
    let shape = byte(bs, at, step, 4);
    let faces = records::shape::faces_in(records::shape::dimension_of(shape));
    byte(bs, at, step, 32 + face) / faces < records::corners(shape, face)
}

// The rule of a link to the record at `to`, by the dimension. The link there leads back to `back`.
pub fn link_ok(
    bs: &[u8],
    dimension: u32,
    back: u32,
    at: usize,
    step: u32,
    face: u32,
    to: usize,
    gap: u32,
) -> bool
    requires { (at + step * 39 < length bs.now) × (face < 6) × (to + gap * 39 < length bs.now) }
    ensures { result ≡ link_by_dimension dimension back (spaced bs.now at step core_size) face (spaced bs.now to gap core_size) }
{
    let code = byte(bs, at, step, 32 + face);
    let across = parted(dimension, code);
    let there = across.face;
    corners_fit(
        across.orientation,
        byte(bs, at, step, 4),
        face,
        byte(bs, to, gap, 4),
        there,
    ) & ((word(bs, to, gap, 8 + 4 * there) == back)
        & (byte(bs, to, gap, 32 + there) + there == code + face))
}
