// The rule of a link between two records in a buffer, read by the dimension and not by the shapes of the two. Where all records have that dimension it says the same (proofs/ByDimension.antt).
ghost use Rattle.std.specs.Prelude.{◌≡◌, ◌+◌, ◌/◌, ◌%◌, ◌≤◌, ◌<◌, length};
ghost use Rattle.encoding.specs.Pieces.{piece};
ghost use Rattle.records.specs.Shape.{faces_in};
ghost use Rattle.records.specs.Record.{core_size};
ghost use Rattle.mesh.specs.Link.{orientation_ok};
ghost use Rattle.mesh.specs.Means.{corners_fit, answered_there, link_by_dimension};

// The orientation of a link of the record at `at` is below the corners of the face.
pub fn orientation_ok(bs: &[u8], at: usize, face: u32) -> bool
    requires { (at + core_size ≤ length bs.now) × (face < 6) }
    ensures { result ≡ orientation_ok (piece bs.now at core_size) face }
{
    records::read::orientation_of(bs, at, face)
        < records::corners(records::read::shape_of(bs, at), face)
}

// What a face code says: the neighbour's face and the orientation.
#[derive(Clone, Copy)]
pub struct FaceCode {
    pub face: u32,
    pub orientation: u32,
}

// A code taken apart by F of the dimension, once for each link: a division by a constant is several times faster than one by F.
pub fn parted(dimension: u32, code: u32) -> FaceCode
    ensures { (result.face ≡ code % faces_in dimension) × ((result.orientation ≡ code / faces_in dimension) × (result.face < 6)) }
{
    if dimension == 2 {
        return FaceCode {
            face: code % 4,
            orientation: code / 4,
        };
    }
    FaceCode {
        face: code % 6,
        orientation: code / 6,
    }
}

// Whether two faces have as many corners, and the orientation is below these. All faces of two hexahedra, or of two tetrahedra, are alike: most meshes need no more.
pub fn corners_fit(orientation: u32, shape: u32, face: u32, other: u32, there: u32) -> bool
    requires { (face < 6) × (there < 6) }
    ensures { result ≡ corners_fit orientation shape face other there }
{
    if (shape == other) & (shape == 2) {
        return orientation < 4;
    }
    if (shape == other) & (shape == 3) {
        return (orientation < 3) & ((face < 4) & (there < 4));
    }
    let own = records::corners(shape, face);
    (orientation < own) & (own == records::corners(other, there))
}

// The neighbour's link on its face `there` leads back, and its code is this one with the face in place of the neighbour's.
pub fn answered_there(bs: &[u8], back: u32, code: u32, face: u32, to: usize, there: u32) -> bool
    requires { (to + core_size ≤ length bs.now) × (there < 6) }
    ensures { result ≡ answered_there back code face (piece bs.now to core_size) there }
{
    (records::read::neighbour_of(bs, to, there) == back)
        & ((records::read::code_of(bs, to, there) as u64) + (there as u64)
            == (code as u64) + (face as u64))
}

// The whole rule. The neighbour's link leads back to `back`, as it is stored there.
pub fn link_ok(bs: &[u8], dimension: u32, back: u32, at: usize, face: u32, to: usize) -> bool
    requires { (at + core_size ≤ length bs.now) × (face < 6) × (to + core_size ≤ length bs.now) }
    ensures { result ≡ link_by_dimension dimension back (piece bs.now at core_size) face (piece bs.now to core_size) }
{
    let code = records::read::code_of(bs, at, face);
    let across = parted(dimension, code);
    let there = across.face;
    if !answered_there(bs, back, code, face, to, there) {
        return false;
    }
    corners_fit(
        across.orientation,
        records::read::shape_of(bs, at),
        face,
        records::read::shape_of(bs, to),
        there,
    )
}
