// The fields of a record, read in place from byte `at` of the lent bytes.
ghost use Rattle.std.specs.Prelude.{◌≡◌, ◌+◌, ◌≤◌, ◌<◌, length};
ghost use Rattle.encoding.specs.Pieces.{piece};
ghost use Rattle.records.specs.Record.{core_size, number_of, shape_of, neighbour_of, code_of, faces_of, face_of, orientation_of, region_of};

use crate::shape::{dimension_of, faces_in};

pub fn number_of(bs: &[u8], at: usize) -> u32
    requires { at + core_size ≤ length bs.now }
    ensures { result ≡ number_of (piece bs.now at core_size) }
{
    encoding::bytes::read_u32(bs, at)
}

pub fn shape_of(bs: &[u8], at: usize) -> u32
    requires { at + core_size ≤ length bs.now }
    ensures { result ≡ shape_of (piece bs.now at core_size) }
{
    u32::from(bs[at + 4])
}

pub fn neighbour_of(bs: &[u8], at: usize, face: u32) -> u32
    requires { (at + core_size ≤ length bs.now) × (face < 6) }
    ensures { result ≡ neighbour_of (piece bs.now at core_size) face }
{
    encoding::bytes::read_u32(bs, at + (8 + 4 * (face as usize)))
}

pub fn code_of(bs: &[u8], at: usize, face: u32) -> u32
    requires { (at + core_size ≤ length bs.now) × (face < 6) }
    ensures { result ≡ code_of (piece bs.now at core_size) face }
{
    u32::from(bs[at + (32 + (face as usize))])
}

// F by the record's own shape.
pub fn faces_of(bs: &[u8], at: usize) -> u32
    requires { at + core_size ≤ length bs.now }
    ensures { (result ≡ faces_of (piece bs.now at core_size)) × ((0 < result) × (result ≤ 6)) }
{
    faces_in(dimension_of(shape_of(bs, at)))
}

// F is 4 or 6: a division by a constant is several times faster than one by F.
pub fn face_of(bs: &[u8], at: usize, face: u32) -> u32
    requires { (at + core_size ≤ length bs.now) × (face < 6) }
    ensures { (result ≡ face_of (piece bs.now at core_size) face) × (result < 6) }
{
    let code = code_of(bs, at, face);
    if faces_of(bs, at) == 4 {
        return code % 4;
    }
    code % 6
}

pub fn orientation_of(bs: &[u8], at: usize, face: u32) -> u32
    requires { (at + core_size ≤ length bs.now) × (face < 6) }
    ensures { result ≡ orientation_of (piece bs.now at core_size) face }
{
    let code = code_of(bs, at, face);
    if faces_of(bs, at) == 4 {
        return code / 4;
    }
    code / 6
}

// The region number, 0 for none.
pub fn region_of(bs: &[u8], at: usize) -> u32
    requires { at + core_size ≤ length bs.now }
    ensures { result ≡ region_of (piece bs.now at core_size) }
{
    u32::from(bs[at + 38]) + 256 * u32::from(bs[at + 39])
}
