// What stands across a face of a tree.
ghost use Rattle.std.specs.Prelude.{◌≡◌, ◌+◌, ◌≤◌, ◌<◌, length};
ghost use Rattle.encoding.specs.Pieces.{piece};
ghost use Rattle.records.specs.Record.{core_size, to_itself};
ghost use Rattle.part.specs.Layout.{tree_place};
ghost use Rattle.part_neighbour.specs.Neighbour.{link_kind, link_across, across as across_of, link_of, flat_answer};
ghost use Rattle.part_neighbour.specs.Calls.{answered_of};

use encoding::refusal::Refusal;
use part::layout::{tree_at, tree_count};
use records::index::LocalIndex;

// The other side of a face: the local index there, its face and the orientation.
#[derive(Clone, Copy, Debug, PartialEq, Eq)]
pub struct Across {
    pub index: LocalIndex,
    pub face: u32,
    pub orientation: u32,
}

// A domain boundary has the own index, the own face and orientation 0; a face without use has zeros.
// All four cases have values, since the theorems and C ask for them whatever the case.
#[derive(Clone, Copy, Debug, PartialEq, Eq)]
pub enum Link {
    Boundary(Across),
    Unused(Across),
    Local(Across),
    Ghost(Across),
}

impl Link {
    // The number of its case, as C gets it.
    #[tactic(auto, unfolding(crate::specs::Neighbour::link_kind))]
    fn kind(self) -> u32
        ensures { result ≡ link_kind self }
    {
        match self {
            Link::Boundary(_) => 0,
            Link::Unused(_) => 1,
            Link::Local(_) => 2,
            Link::Ghost(_) => 3,
        }
    }

    #[tactic(auto, unfolding(crate::specs::Neighbour::link_across))]
    fn across(self) -> Across
        ensures { result ≡ link_across self }
    {
        match self {
            Link::Boundary(there) | Link::Unused(there) | Link::Local(there) | Link::Ghost(there) =>
                there,
        }
    }
}

// The shape of a tree, and what stands across its face.
#[derive(Clone, Copy, Debug, PartialEq, Eq)]
pub struct Neighbour {
    pub shape: u32,
    pub link: Link,
}

// The same as C gets it: the kind is 0 for a boundary, 1 for no use, 2 for a local tree, 3 for a ghost. When refused, `refusal` is the number of the first check that failed and the rest is 0.
#[repr(C)]
#[derive(Clone, Copy)]
pub struct NeighbourAnswer {
    pub refusal: u32,
    pub shape: u32,
    pub kind: u32,
    pub index: u32,
    pub face: u32,
    pub orientation: u32,
}

impl From<Result<Neighbour, Refusal>> for NeighbourAnswer {
    ghost from_gives = { λ answer numbers. numbers ≡ flat_answer (answered_of answer) };

    #[tactic(auto, unfolding(crate::specs::Neighbour::link_kind, crate::specs::Neighbour::link_across))]
    fn from(answer: Result<Neighbour, Refusal>) -> NeighbourAnswer {
        match answer {
            Ok(neighbour) => {
                let there = neighbour.link.across();
                let index = there.index;
                NeighbourAnswer {
                    refusal: 0,
                    shape: neighbour.shape,
                    kind: neighbour.link.kind(),
                    index: index.0,
                    face: there.face,
                    orientation: there.orientation,
                }
            }
            Err(refusal) => NeighbourAnswer {
                refusal: refusal.number(),
                shape: 0,
                kind: 0,
                index: 0,
                face: 0,
                orientation: 0,
            },
        }
    }
}

fn across_to(index: LocalIndex, face: u32, orientation: u32) -> Across
    ensures { result ≡ across_of index.0 face orientation }
{
    Across {
        index,
        face,
        orientation,
    }
}

// Whether a face leads to the own index and the own face.
fn to_itself(part: &[u8], at: usize, own: LocalIndex, face: u32) -> bool
    requires { (at + core_size ≤ length part.now) × (face < 6) }
    ensures { result ≡ to_itself own.0 (piece part.now at core_size) face }
{
    (records::read::neighbour_of(part, at, face) == own.0)
        & (records::read::face_of(part, at, face) == face)
}

// What stands across a face of a tree of a sound part.
pub fn link_of(part: &[u8], tree: LocalIndex, face: u32) -> Link
    requires { (tree_place tree.0 + core_size ≤ length part.now) × (face < 6) }
    ensures { result ≡ link_of part.now tree.0 face }
{
    let at = tree_at(tree);
    if records::shape::face_count(records::read::shape_of(part, at)) <= face {
        return Link::Unused(across_to(LocalIndex(0), 0, 0));
    }
    if to_itself(part, at, tree, face) {
        return Link::Boundary(across_to(tree, face, 0));
    }
    let j = records::read::neighbour_of(part, at, face);
    let there = across_to(
        LocalIndex(j),
        records::read::face_of(part, at, face),
        records::read::orientation_of(part, at, face),
    );
    if j < tree_count(part) {
        return Link::Local(there);
    }
    Link::Ghost(there)
}
