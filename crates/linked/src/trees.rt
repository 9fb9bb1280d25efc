// The links of trees, looked at from one end: a link to a higher tree is only counted, every other has to obey the rules.
ghost use Rattle.std.specs.Prelude.{◌≡◌, true, cond, ◌&&◌, ◌+◌, ◌-◌, ◌*◌, ◌≤◌, ◌<◌, ltb, eqb, length};
ghost use Rattle.encoding.specs.Below.{all_below, count_below, sum_below};
ghost use Rattle.records.specs.Record.{neighbour_of, boundary_ok};
ghost use Rattle.mesh.specs.Means.{packed, SeenAs};
ghost use Rattle.linked.specs.Means.{tree_of, named, name_of, place_of, tree_numbered, tree_to, tree_up, tree_down, tree_listed, tree_fits, tree_face, tree_seen, tree_ups, tree_downs, Laid, Marked, TreeKnown};

use crate::layout::{Records, record_at, tree_at};
use crate::plain::plain_run;
use ghost_links::check::alone;
use mesh::link::link_ok;
use mesh::sound::{Counts, Links, Run, pushed};
use part::range::in_range;
use records::form::boundary_ok;
use records::index::{GlobalIndex, LocalIndex, ghost_index, to_local};
use records::read::{neighbour_of, number_of, shape_of};

// Whether the local index of the tree's number is its own.
pub fn numbered(bs: &[u8], x: Records, tree: LocalIndex) -> bool
    requires { Laid bs.now x × (tree.0 < x.count) }
    ensures { result ≡ tree_numbered bs.now x tree.0 }
{
    let number = number_of(bs, tree_at(x, tree));
    let first = x.first;
    if number < first.0 {
        return false;
    }
    let local = to_local(GlobalIndex(number), first);
    local.0 == tree.0
}

// Whether a link leads to a higher tree.
fn leads_up(bs: &[u8], x: Records, tree: LocalIndex, neighbour: u32) -> bool
    requires { Laid bs.now x × TreeKnown bs.now x tree.0 }
    ensures { result ≡ (ltb (name_of bs.now x tree.0) neighbour && ltb neighbour (cond x.local x.count (x.first.0 + x.count))) }
{
    if x.local {
        return (tree.0 < neighbour) & (neighbour < x.count);
    }
    let number = number_of(bs, tree_at(x, tree));
    let first = x.first;
    (number < neighbour) & (neighbour < first.0 + x.count)
}

// Whether a link leads to the tree itself.
fn leads_back(bs: &[u8], x: Records, tree: LocalIndex, neighbour: u32) -> bool
    requires { Laid bs.now x × TreeKnown bs.now x tree.0 }
    ensures { result ≡ eqb neighbour (name_of bs.now x tree.0) }
{
    if x.local {
        return neighbour == tree.0;
    }
    neighbour == number_of(bs, tree_at(x, tree))
}

// The local index of the record that a tree's record names so; at least as many as there are where none is held.
fn place_of(bs: &[u8], x: Records, marks: &[u64], behind: &[u32], neighbour: u32) -> LocalIndex
    requires { Marked bs.now x marks.now behind.now }
    ensures { result.0 ≡ place_of bs.now x neighbour }
{
    if x.local {
        return LocalIndex(neighbour);
    }
    let number = GlobalIndex(neighbour);
    let first = x.first;
    if in_range(first.0, first.0 + x.count, number) {
        return to_local(number, first);
    }
    ghost_index(
        x.count,
        positions::index::find(marks, behind, x.ghosts, number),
    )
}

// Whether a face of a tree is no boundary, or one in form.
fn edge_ok(bs: &[u8], x: Records, tree: LocalIndex, face: u32) -> bool
    requires { Laid bs.now x × TreeKnown bs.now x tree.0 × (face < 6) }
    ensures { result ≡ boundary_ok (name_of bs.now x tree.0) (tree_of bs.now x tree.0) face }
{
    let at = tree_at(x, tree);
    if x.local {
        return boundary_ok(bs, at, tree.0, face);
    }
    boundary_ok(bs, at, number_of(bs, at), face)
}

// The rule of the link of a tree to a record that is held: a tree of a part names it by local index, any other record by number.
fn held_ok(bs: &[u8], x: Records, tree: LocalIndex, face: u32, place: LocalIndex) -> bool
    requires { Laid bs.now x × TreeKnown bs.now x tree.0 × (face < 6) × (place.0 < x.count + x.ghosts) }
    ensures { result ≡ tree_to bs.now x tree.0 face place.0 }
{
    let at = tree_at(x, tree);
    let to = record_at(x, place);
    if x.local & (place.0 < x.count) {
        return link_ok(bs, x.dimension, tree.0, at, face, to);
    }
    link_ok(bs, x.dimension, number_of(bs, at), at, face, to)
}

// A link that doesn't lead up, and its face.
fn face_ok(
    bs: &[u8],
    x: Records,
    marks: &[u64],
    behind: &[u32],
    tree: LocalIndex,
    face: u32,
) -> bool
    requires { Marked bs.now x marks.now behind.now × TreeKnown bs.now x tree.0 × (face < 6) }
    ensures { result ≡ tree_fits bs.now x tree.0 face }
{
    let neighbour = neighbour_of(bs, tree_at(x, tree), face);
    let place = place_of(bs, x, marks, behind, neighbour);
    if x.count + x.ghosts <= place.0 {
        return false;
    }
    if !edge_ok(bs, x, tree, face) {
        return false;
    }
    held_ok(bs, x, tree, face, place)
}

// The links of a tree, sorted. No branch hangs on where a link leads: with random links it would be guessed wrong every second time.
fn sorted(bs: &[u8], x: Records, tree: LocalIndex, faces: u32) -> Links
    requires { Laid bs.now x × TreeKnown bs.now x tree.0 × (faces ≤ 6) }
    ensures { (result.list ≡ packed faces (tree_listed bs.now x tree.0)) × ((result.counts.ups ≡ count_below faces (tree_up bs.now x tree.0)) × (result.counts.ups ≤ faces)) × ((result.counts.downs ≡ count_below faces (tree_down bs.now x tree.0)) × (result.counts.downs ≤ faces)) }
{
    let at = tree_at(x, tree);
    let mut list = 0;
    let mut ups = 0;
    let mut downs = 0;
    for face in 0..faces {
        let n = neighbour_of(bs, at, face);
        let up = leads_up(bs, x, tree, n);
        let back = leads_back(bs, x, tree, n);
        list = pushed(list, face, !up);
        ups += u64::from(up);
        downs += u64::from(!up & !back);
    }
    Links {
        list,
        counts: Counts { ups, downs },
    }
}

// The faces of a list, the last first.
fn listed_ok(
    bs: &[u8],
    x: Records,
    marks: &[u64],
    behind: &[u32],
    tree: LocalIndex,
    faces: u32,
    list: u32,
) -> bool
    requires { Marked bs.now x marks.now behind.now × TreeKnown bs.now x tree.0 × (faces ≤ 6) × (list ≡ packed faces (tree_listed bs.now x tree.0)) }
    ensures { result ≡ all_below faces (tree_face bs.now x tree.0) }
{
    let mut left = list;
    // the digits of the list, the last first: no index is counted
    while 0 < left {
        if !face_ok(bs, x, marks, behind, tree, left % 8 - 1) {
            return false;
        }
        left = left / 8;
    }
    true
}

fn tree_linked(
    bs: &[u8],
    x: Records,
    marks: &[u64],
    behind: &[u32],
    tree: LocalIndex,
) -> Option<Counts>
    requires { Marked bs.now x marks.now behind.now × (tree.0 < x.count) }
    ensures { SeenAs (tree_seen bs.now x tree.0) (tree_ups bs.now x tree.0) (tree_downs bs.now x tree.0) 6 result }
{
    if !numbered(bs, x, tree) {
        return None;
    }
    let at = tree_at(x, tree);
    if !alone(bs, x.dimension, at) {
        return None;
    }
    let faces = records::shape::face_count(shape_of(bs, at));
    let links = sorted(bs, x, tree, faces);
    if !listed_ok(bs, x, marks, behind, tree, faces, links.list) {
        return None;
    }
    Some(links.counts)
}

// Whether a tree is there and a hexahedron.
fn hexahedron(bs: &[u8], x: Records, tree: LocalIndex) -> bool
    requires { Laid bs.now x }
{
    if x.count <= tree.0 {
        return false;
    }
    shape_of(bs, tree_at(x, tree)) == 2
}

// All trees: their numbers, their form and their links.
pub fn trees_linked(bs: &[u8], x: Records, marks: &[u64], behind: &[u32]) -> Option<Counts>
    requires { Marked bs.now x marks.now behind.now }
    ensures { SeenAs (all_below x.count (tree_seen bs.now x)) (sum_below x.count (tree_ups bs.now x)) (sum_below x.count (tree_downs bs.now x)) (6 * x.count) result }
{
    let mut run = plain_run(
        bs,
        x,
        Run {
            next: 0,
            seen: Counts { ups: 0, downs: 0 },
        },
    );
    // a run may pass over many trees
    while run.next < x.count {
        let tree = run.next;
        let seen = tree_linked(bs, x, marks, behind, LocalIndex(tree))?;
        run = Run {
            next: tree + 1,
            seen: Counts {
                ups: run.seen.ups + seen.ups,
                downs: run.seen.downs + seen.downs,
            },
        };
        if hexahedron(bs, x, LocalIndex(tree + 1)) {
            run = plain_run(bs, x, run);
        }
    }
    Some(run.seen)
}
