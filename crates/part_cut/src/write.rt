// Writing a part: the header, the trees with local indices, the ghosts.
ghost use Rattle.std.specs.Prelude.{◌≡◌, ◌*◌, length};
ghost use Rattle.encoding.specs.Pieces.{splice};
ghost use Rattle.bits.specs.Bits.{in_set};
ghost use Rattle.mesh.specs.Mesh.{mesh_core};
ghost use Rattle.positions.specs.Means.{cores_below};
ghost use Rattle.part_cut.specs.Means.{GhostsRoom, PartRoom, part_with};

use crate::ghosts::Extent;
use crate::locals::write_trees;

// Writes the cores of a set's trees from byte `at` on, ascending.
fn write_ghosts(mesh: &[u8], marks: &[u64], out: &mut [u8], at: usize)
    requires { GhostsRoom mesh.now marks.now out.old at }
    ensures { out.new ≡ splice out.old at (cores_below (mesh_core mesh.now) (in_set marks.now) (64 * length marks.now)) }
{
    let end = 64 * (marks.len() as u32);
    let mut to = at;
    let mut k = bits::set::next_member(marks, 0);
    // from member to member of the set
    while k < end {
        encoding::record::copy40(mesh, mesh::layout::tree_at(k), &mut *out, to);
        to += 40;
        k = bits::set::next_member(marks, k + 1);
    }
}

// Writes a part, whose ghosts are the members of the set.
pub fn write(
    mesh: &[u8],
    ranks: u32,
    rank: u32,
    part: Extent,
    marks: &[u64],
    behind: &[u32],
    out: &mut [u8],
)
    requires { PartRoom mesh.now part.first part.trees marks.now behind.now part.ghosts out.old }
    ensures { out.new ≡ splice out.old 0 (part_with mesh.now ranks rank part.first part.trees marks.now part.ghosts) }
{
    let dimension = mesh::layout::dimension(mesh);
    let faces = records::shape::faces_in(dimension);
    let from = mesh::layout::tree_at(part.first);
    let trees = mesh::layout::trees(mesh);
    encoding::header::write_eight(
        &mut *out,
        [
            dimension,
            trees,
            ranks,
            rank,
            part.first,
            part.trees,
            part.ghosts,
            0,
        ],
    );
    write_trees(
        mesh,
        from,
        faces,
        part.first,
        part.trees,
        marks,
        behind,
        part.ghosts,
        &mut *out,
    );
    write_ghosts(
        mesh,
        marks,
        &mut *out,
        part::layout::ghost_at(part.trees, 0),
    );
}
