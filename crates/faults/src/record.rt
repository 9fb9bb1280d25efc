// What is wrong with a record and with its faces, in whole meshes and parts alike. A record's 40 core bytes are read in place, from byte `at` of the lent bytes.
ghost use Rattle.std.specs.Prelude.{◌≡◌, ◌+◌, ◌≤◌, ◌<◌, ltb, length};
ghost use Rattle.encoding.specs.Pieces.{piece};
ghost use Rattle.records.specs.Shape.{face_count};
ghost use Rattle.records.specs.Record.{core_size, shape_of};
ghost use Rattle.mesh.specs.Link.{same_corners, answered as is_answered};
ghost use Rattle.faults.specs.Kinds.{kind_of};
ghost use Rattle.faults.specs.Record.{record_kind, link_kind};
ghost use Rattle.faults.specs.Means.{form_kind};

use crate::answer::Kind;
use records::form::{UNUSED, region_ok, zeros_ok};
use records::read::{code_of, face_of, neighbour_of, orientation_of, shape_of};
use records::shape::{dimension_of, face_count, shape_ok};

// The kinds without a face.
pub fn check_record(bs: &[u8], at: usize, in_order: bool, dimension: u32) -> Result<(), Kind>
    requires { at + core_size ≤ length bs.now }
    ensures { kind_of result ≡ record_kind in_order dimension (piece bs.now at core_size) }
{
    if !in_order {
        return Err(Kind::Number);
    }
    let shape = shape_of(bs, at);
    if !shape_ok(shape) {
        return Err(Kind::Shape);
    }
    if !(zeros_ok(bs, at) & region_ok(bs, at)) {
        return Err(Kind::Bytes);
    }
    if dimension_of(shape) != dimension {
        return Err(Kind::Dimension);
    }
    Ok(())
}

// Whether the shape has the face.
pub fn has_face(bs: &[u8], at: usize, face: u32) -> bool
    requires { at + core_size ≤ length bs.now }
    ensures { result ≡ ltb face (face_count (shape_of (piece bs.now at core_size))) }
{
    face < face_count(shape_of(bs, at))
}

// A face that the shape doesn't have is marked so, and a boundary has no orientation.
pub fn check_form(bs: &[u8], at: usize, own: u32, face: u32) -> Result<(), Kind>
    requires { (at + core_size ≤ length bs.now) × (face < 6) }
    ensures { kind_of result ≡ form_kind own (piece bs.now at core_size) face }
{
    let n = neighbour_of(bs, at, face);
    if has_face(bs, at, face) {
        if (n == own) & (face_of(bs, at, face) == face) & (orientation_of(bs, at, face) != 0) {
            return Err(Kind::Boundary);
        }
        return Ok(());
    }
    if (n == UNUSED) & (code_of(bs, at, face) == 0) {
        return Ok(());
    }
    Err(Kind::Unused)
}

fn same_corners(bs: &[u8], at: usize, face: u32, to: usize) -> bool
    requires { (at + core_size ≤ length bs.now) × (face < 6) × (to + core_size ≤ length bs.now) }
    ensures { result ≡ same_corners (piece bs.now at core_size) face (piece bs.now to core_size) }
{
    records::corners(shape_of(bs, at), face)
        == records::corners(shape_of(bs, to), face_of(bs, at, face))
}

fn answered(bs: &[u8], back: u32, at: usize, face: u32, to: usize) -> bool
    requires { (at + core_size ≤ length bs.now) × (face < 6) × (to + core_size ≤ length bs.now) }
    ensures { result ≡ is_answered back (piece bs.now at core_size) face (piece bs.now to core_size) }
{
    let there = face_of(bs, at, face);
    (neighbour_of(bs, to, there) == back)
        & (face_of(bs, to, there) == face)
        & (orientation_of(bs, to, there) == orientation_of(bs, at, face))
}

// The rule of a link, each record read by its own shape. The neighbour's link leads back to `back`, as it is stored there.
pub fn check_link(bs: &[u8], back: u32, at: usize, face: u32, to: usize) -> Result<(), Kind>
    requires { (at + core_size ≤ length bs.now) × (face < 6) × (to + core_size ≤ length bs.now) }
    ensures { kind_of result ≡ link_kind back (piece bs.now at core_size) face (piece bs.now to core_size) }
{
    if !mesh::link::orientation_ok(bs, at, face) {
        return Err(Kind::Orientation);
    }
    if !same_corners(bs, at, face, to) {
        return Err(Kind::Corners);
    }
    if !answered(bs, back, at, face, to) {
        return Err(Kind::Answer);
    }
    Ok(())
}
