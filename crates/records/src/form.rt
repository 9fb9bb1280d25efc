// Whether a record is in form.
ghost use Rattle.std.specs.Prelude.{◌≡◌, ◌+◌, ◌≤◌, ◌<◌, length};
ghost use Rattle.encoding.specs.Below.{all_below, any_below};
ghost use Rattle.encoding.specs.Pieces.{piece};
ghost use Rattle.records.specs.Record.{core_size, zeros_ok, region_ok, unused_ok, boundary_ok, in_form};
ghost use Rattle.records.specs.Means.{face_form, unused_from, leads_to, alike_form, plain_form};

use crate::read::{code_of, face_of, neighbour_of, number_of, orientation_of, region_of, shape_of};
use crate::shape::{face_count, shape_ok};

// The neighbour of a face without use.
pub const UNUSED: u32 = 4294967295;

// Regions are the numbers below this one.
pub const REGIONS: u32 = 4096;

// Whether the zero bytes are zero.
pub fn zeros_ok(bs: &[u8], at: usize) -> bool
    requires { at + core_size ≤ length bs.now }
    ensures { result ≡ zeros_ok (piece bs.now at core_size) }
{
    (bs[at + 5] == 0) & (bs[at + 6] == 0) & (bs[at + 7] == 0)
}

// Whether the region is within its limit.
pub fn region_ok(bs: &[u8], at: usize) -> bool
    requires { at + core_size ≤ length bs.now }
    ensures { result ≡ region_ok (piece bs.now at core_size) }
{
    region_of(bs, at) < REGIONS
}

// Whether a face that the shape has is no boundary, or one with orientation 0.
pub fn boundary_ok(bs: &[u8], at: usize, own: u32, face: u32) -> bool
    requires { (at + core_size ≤ length bs.now) × (face < 6) }
    ensures { result ≡ boundary_ok own (piece bs.now at core_size) face }
{
    if neighbour_of(bs, at, face) != own {
        return true;
    }
    if face_of(bs, at, face) != face {
        return true;
    }
    orientation_of(bs, at, face) == 0
}

// Whether a face that the shape doesn't have is marked so.
pub fn unused_ok(bs: &[u8], at: usize, face: u32) -> bool
    requires { (at + core_size ≤ length bs.now) × (face < 6) }
    ensures { result ≡ unused_ok (piece bs.now at core_size) face }
{
    (neighbour_of(bs, at, face) == UNUSED) & (code_of(bs, at, face) == 0)
}

fn face_ok(bs: &[u8], at: usize, own: u32, face: u32) -> bool
    requires { (at + core_size ≤ length bs.now) × (face < 6) }
    ensures { result ≡ face_form own (piece bs.now at core_size) face }
{
    if face < face_count(shape_of(bs, at)) {
        return boundary_ok(bs, at, own, face);
    }
    unused_ok(bs, at, face)
}

fn faces_ok(bs: &[u8], at: usize, own: u32) -> bool
    requires { at + core_size ≤ length bs.now }
    ensures { result ≡ all_below 6 (face_form own (piece bs.now at core_size)) }
{
    for face in 0..6 {
        if !face_ok(bs, at, own, face) {
            return false;
        }
    }
    true
}

// The faces that a shape with so many faces doesn't have.
pub fn unused_from(bs: &[u8], at: usize, faces: u32) -> bool
    requires { (at + core_size ≤ length bs.now) × (faces ≤ 6) }
    ensures { result ≡ all_below 6 (unused_from faces (piece bs.now at core_size)) }
{
    for face in faces..6 {
        if !unused_ok(bs, at, face) {
            return false;
        }
    }
    true
}

// Whether k is the neighbour of some face. The six are compared together, without a branch.
fn leads_to(bs: &[u8], at: usize, k: u32) -> bool
    requires { at + core_size ≤ length bs.now }
    ensures { result ≡ any_below 6 (leads_to k (piece bs.now at core_size)) }
{
    (neighbour_of(bs, at, 0) == k)
        | (neighbour_of(bs, at, 1) == k)
        | (neighbour_of(bs, at, 2) == k)
        | (neighbour_of(bs, at, 3) == k)
        | (neighbour_of(bs, at, 4) == k)
        | (neighbour_of(bs, at, 5) == k)
}

// A record with this shape, which has so many faces, and this number: in form but for its boundaries.
pub fn alike(bs: &[u8], at: usize, shape: u32, faces: u32, number: u32) -> bool
    requires { (at + core_size ≤ length bs.now) × (faces ≤ 6) }
    ensures { result ≡ alike_form shape faces number (piece bs.now at core_size) }
{
    (number_of(bs, at) == number)
        & (shape_of(bs, at) == shape)
        & zeros_ok(bs, at)
        & region_ok(bs, at)
        & unused_from(bs, at, faces)
}

// A hexahedron with this number, none of whose faces leads to itself: most records are such. It is in form.
pub fn plain(bs: &[u8], at: usize, own: u32) -> bool
    requires { at + core_size ≤ length bs.now }
    ensures { result ≡ plain_form own (piece bs.now at core_size) }
{
    alike(bs, at, 2, 6, own) & !leads_to(bs, at, own)
}

// Whether the record is in form. Only a face that leads to the record itself can be a boundary. Its own number is the local index in a part's tree records and the global number everywhere else.
pub fn in_form(bs: &[u8], at: usize, own: u32) -> bool
    requires { at + core_size ≤ length bs.now }
    ensures { result ≡ in_form own (piece bs.now at core_size) }
{
    if !(shape_ok(shape_of(bs, at)) & zeros_ok(bs, at) & region_ok(bs, at)) {
        return false;
    }
    if leads_to(bs, at, own) {
        return faces_ok(bs, at, own);
    }
    unused_from(bs, at, face_count(shape_of(bs, at)))
}
