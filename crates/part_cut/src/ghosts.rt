// The ghosts of a rank's range as a set of bits: what the range's own trees have across their faces. Answered links make these the trees outside with a neighbour inside, and no other tree of the mesh is read.
ghost use Rattle.std.specs.Prelude.{◌≡◌, ◌-◌};
ghost use Rattle.encoding.specs.Pieces.{piece};
ghost use Rattle.records.specs.Record.{core_size};
ghost use Rattle.mesh.specs.Mesh.{mesh_core};
ghost use Rattle.positions.specs.Means.{Added};
ghost use Rattle.part_cut.specs.Means.{out_faces, out_trees, FacesFit, TreesFit, CutSpace, Measured};

use part::range::within;

// Adds the neighbours, outside the range, across the first faces of the record at byte `at`: numbers where it is a mesh's, local indices where it is a tree of a part.
pub fn mark_faces(bs: &[u8], at: usize, faces: u32, first: u32, end: u32, marks: &mut [u64])
    requires { FacesFit bs.now at faces first end marks.old }
    ensures { Added marks.old (out_faces first end (piece bs.now at core_size) faces) marks.new }
{
    for face in 0..faces {
        let k = records::read::neighbour_of(bs, at, face);
        if !within(first, end, k) {
            bits::set::add_member(&mut *marks, k);
        }
    }
}

// Adds the neighbours, outside the range, of its trees.
fn mark_trees(mesh: &[u8], first: u32, end: u32, marks: &mut [u64])
    requires { TreesFit mesh.now first end marks.old }
    ensures { Added marks.old (out_trees (mesh_core mesh.now) first end (end - first)) marks.new }
{
    for k in first..end {
        let at = mesh::layout::tree_at(k);
        let faces = records::shape::face_count(records::read::shape_of(mesh, at));
        mark_faces(mesh, at, faces, first, end, &mut *marks);
    }
}

// What a part has: its first tree, how many trees and how many ghosts.
#[derive(Clone, Copy)]
pub struct Extent {
    pub first: u32,
    pub trees: u32,
    pub ghosts: u32,
}

// Measures the part of a rank, and leaves the set of its ghosts with the counts.
pub fn measure(
    mesh: &[u8],
    table: &[u8],
    rank: u32,
    marks: &mut [u64],
    behind: &mut [u32],
) -> Extent
    requires { CutSpace mesh.now table.now rank marks.old behind.old }
    ensures { Measured mesh.now table.now rank marks.new behind.new result.first result.trees result.ghosts }
{
    let first = offsets::table::first_tree(table, rank as usize) as u32;
    let end = offsets::table::end_tree(table, rank as usize) as u32;
    mark_trees(mesh, first, end, &mut *marks);
    let words = mesh::layout::trees(mesh).div_ceil(64) as usize;
    let ghosts = positions::index::count_behind(&*marks, words, &mut *behind);
    Extent {
        first,
        trees: end - first,
        ghosts,
    }
}
