// Plain trees: hexahedra whose neighbours are trees and hexahedra, as in a brick. All their faces are alike, so that their links need fewer tests. These tests answer in one direction: a tree that doesn't pass them is looked at by the general ones.
ghost use Rattle.std.specs.Prelude.{◌≡◌, true, Some, IfSome, ◌+◌, ◌*◌, ◌≤◌, ◌<◌};
ghost use Rattle.encoding.specs.Pieces.{piece};
ghost use Rattle.records.specs.Record.{core_size, tree_size, shape_of};
ghost use Rattle.mesh.specs.Means.{link_by_dimension, SeenAs, RunAs};
ghost use Rattle.linked.specs.Means.{tree_of, named, name_of, tree_place, tree_fits, tree_seen, tree_ups, tree_downs, Laid, TreeKnown};

use crate::layout::{Records, tree_at};
use crate::trees::numbered;
use mesh::plain::link_alike;
use mesh::sound::{Counts, Run};
use records::form::{region_ok, zeros_ok};
use records::index::{GlobalIndex, LocalIndex, to_local};
use records::read::{code_of, neighbour_of, number_of, shape_of};

// The local index of the tree that a tree's record names so; at least `count` where it is none.
fn tree_of(x: Records, neighbour: u32) -> LocalIndex
    ensures { result.0 ≡ tree_place x neighbour }
{
    if x.local {
        return LocalIndex(neighbour);
    }
    let first = x.first;
    if first.0 <= neighbour {
        return to_local(GlobalIndex(neighbour), first);
    }
    LocalIndex(x.count)
}

// The rule of the link of a hexahedron to a tree that is one: the tree names it by local index or by number.
fn alike_ok(bs: &[u8], x: Records, tree: LocalIndex, face: u32, place: LocalIndex) -> bool
    requires { Laid bs.now x × TreeKnown bs.now x tree.0 × (face < 6) × (place.0 < x.count) × (shape_of (tree_of bs.now x tree.0) ≡ 2) }
    ensures { result ≡ true → link_by_dimension 3 (name_of bs.now x tree.0) (tree_of bs.now x tree.0) face (tree_of bs.now x place.0) ≡ true }
{
    let at = tree_at(x, tree);
    let to = tree_at(x, place);
    if x.local {
        return link_alike(bs, 2, tree.0, at, face, to);
    }
    link_alike(bs, 2, number_of(bs, at), at, face, to)
}

// A link that doesn't lead up. One to the tree itself may be a boundary, which has orientation 0.
fn plain_face(bs: &[u8], x: Records, tree: LocalIndex, face: u32, place: LocalIndex) -> bool
    requires { Laid bs.now x × TreeKnown bs.now x tree.0 × (face < 6) × (place.0 ≤ tree.0) × (place.0 ≡ tree_place x (named bs.now x tree.0 face)) × (shape_of (tree_of bs.now x tree.0) ≡ 2) × (x.dimension ≡ 3) }
    ensures { result ≡ true → tree_fits bs.now x tree.0 face ≡ true }
{
    alike_ok(bs, x, tree, face, place)
        & ((place.0 != tree.0) | (code_of(bs, tree_at(x, tree), face) < 6))
}

// A hexahedron; a link that leads up is only counted.
fn plain_tree(bs: &[u8], x: Records, tree: LocalIndex) -> Option<Counts>
    requires { Laid bs.now x × (tree.0 < x.count) }
    ensures { IfSome result (λ seen. SeenAs (tree_seen bs.now x tree.0) (tree_ups bs.now x tree.0) (tree_downs bs.now x tree.0) 6 (Some seen)) }
{
    let at = tree_at(x, tree);
    if !(numbered(bs, x, tree)
        & (x.dimension == 3)
        & (shape_of(bs, at) == 2)
        & zeros_ok(bs, at)
        & region_ok(bs, at))
    {
        return None;
    }
    let i = tree.0;
    let mut ups = 0;
    let mut downs = 0;
    for face in 0..6 {
        let place = tree_of(x, neighbour_of(bs, at, face));
        let j = place.0;
        if i < j {
            if x.count <= j {
                return None;
            }
            ups += 1;
        } else {
            if !plain_face(bs, x, tree, face, place) {
                return None;
            }
            downs += u64::from(j < i);
        }
    }
    Some(Counts { ups, downs })
}

// Goes on with a run as far as the trees are plain. By itself, so that few values are at hand in this loop, and all in registers.
pub fn plain_run(bs: &[u8], x: Records, begun: Run) -> Run
    requires { Laid bs.now x × (begun.next ≤ x.count) × (begun.seen.ups ≤ 6 * begun.next) × (begun.seen.downs ≤ 6 * begun.next) }
    ensures { RunAs (tree_seen bs.now x) (tree_ups bs.now x) (tree_downs bs.now x) x.count begun result }
{
    let count = x.count;
    let mut ups = begun.seen.ups;
    let mut downs = begun.seen.downs;
    for next in begun.next..count {
        let Some(seen) = plain_tree(bs, x, LocalIndex(next)) else {
            return Run {
                next,
                seen: Counts { ups, downs },
            };
        };
        ups += seen.ups;
        downs += seen.downs;
    }
    Run {
        next: count,
        seen: Counts { ups, downs },
    }
}
