// Plain trees of a part: hexahedra whose neighbours are hexahedra, as in a brick. All their faces are alike, so that their links need fewer tests. These tests answer in one direction: a tree that doesn't pass them is looked at by the general ones.
ghost use Rattle.std.specs.Prelude.{◌≡◌, true, ◌<◌};
ghost use Rattle.part.specs.Part.{stored_tree};
ghost use Rattle.part.specs.Means.{ghost_core};
ghost use Rattle.mesh.specs.Means.{link_by_dimension};
ghost use Rattle.part_check.specs.Means.{tree_fits, Hexahedron};

use crate::sound::back_of;
use mesh::plain::link_alike;
use part::layout::{record_at, tree_at};
use records::index::LocalIndex;
use records::read::{code_of, neighbour_of};

// A boundary, or a link to a hexahedron, be it a tree or a ghost.
pub fn plain_face(
    part: &[u8],
    first: u32,
    count: u32,
    ghosts: u32,
    tree: LocalIndex,
    face: u32,
) -> bool
    requires { Hexahedron part.now first count ghosts tree.0 × (face < 6) }
    ensures { result ≡ true → tree_fits (link_by_dimension 3) count ghosts (stored_tree part.now) (ghost_core part.now count) tree.0 face ≡ true }
{
    let i = tree.0;
    let at = tree_at(tree);
    let j = neighbour_of(part, at, face);
    if (count as u64) + (ghosts as u64) <= (j as u64) {
        return false;
    }
    // a link to the tree itself may be a boundary, which has orientation 0
    link_alike(
        part,
        2,
        back_of(first, count, i, j),
        at,
        face,
        record_at(count, LocalIndex(j)),
    ) & ((j != i) | (code_of(part, at, face) < 6))
}
