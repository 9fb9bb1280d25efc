// The first record of a part that is wrong. Trees are followed by local index, ghosts found by number among those in order, by halves.
ghost use Rattle.std.specs.Prelude.{◌≡◌, true, not, ◌&&◌, ◌+◌, ◌*◌, ◌≤◌, ◌<◌, eqb, length};
ghost use Rattle.encoding.specs.Below.{all_below, least_below};
ghost use Rattle.mesh.specs.Means.{link_by_dimension};
ghost use Rattle.offsets.specs.Limits.{max_trees};
ghost use Rattle.part.specs.Layout.{ghost_place, part_size};
ghost use Rattle.part.specs.Means.{ghost_core};
ghost use Rattle.records.specs.Record.{neighbour_of};
ghost use Rattle.part.specs.Part.{part_k, part_first, part_count, part_ghost_count, stored_tree, stored_ghost, view_of};
ghost use Rattle.part_check.specs.Means.{tree_face, tree_stored, tree_numbered, ghost_numbered, ghost_face, PartLaid};
ghost use Rattle.faults.specs.Answer.{first_fault};
ghost use Rattle.faults.specs.Kinds.{fault_of, kind_of, wrong_of};
ghost use Rattle.faults.specs.Record.{first_face};
ghost use Rattle.part_fault.specs.Wrong.{tree_to_in, tree_face_in, tree_wrong_in, ghost_to_in, ghost_face_in, ghost_wrong_in, face_in, wrong_in};
ghost use Rattle.part_fault.specs.Means.{ghost_face_of, Known, Sought, GhostWay, IsFirst};

use encoding::refusal::Refusal;
use faults::answer::{Kind, Place, Wrong};
use faults::record::{check_form, check_link, check_record, has_face};
use mesh::link::link_ok;
use part::layout::{ghost_at, tree_at};
use part::range::{beside, in_range};
use part_check::plain::plain_face;
use part_check::sound::{ghost_numbered, ghost_with, tree_numbered};
use records::form::{alike, in_form};
use records::index::{GlobalIndex, LocalIndex, ghost_index, to_local};
use records::read::{neighbour_of, number_of, shape_of};
use records::shape::{dimension_of, face_count};

// What the header says, and how many ghosts come before the first that is out of order.
#[derive(Clone, Copy, Debug, PartialEq, Eq)]
pub struct Extent {
    pub first: u32,
    pub count: u32,
    pub ghosts: u32,
    pub found: u32,
    pub dimension: u32,
    pub trees: u32,
}

fn ghosts_found(part: &[u8], first: u32, count: u32, ghosts: u32, trees: u32) -> u32
    requires { PartLaid part.now first count ghosts trees }
    ensures { result ≡ least_below ghosts (λ j. not (ghost_numbered first count (ghost_core part.now count) trees j)) }
{
    for j in 0..ghosts {
        if !ghost_numbered(part, first, count, trees, j) {
            return j;
        }
    }
    ghosts
}

pub fn extent_of(part: &[u8]) -> Extent
    requires { PartLaid part.now (part_first part.now) (part_count part.now) (part_ghost_count part.now) (part_k part.now) }
    ensures { Known part.now result }
{
    let first = part::layout::first_tree(part).0;
    let count = part::layout::tree_count(part);
    let ghosts = part::layout::ghost_count(part);
    let trees = part::layout::trees(part);
    Extent {
        first,
        count,
        ghosts,
        found: ghosts_found(part, first, count, ghosts, trees),
        dimension: part::layout::dimension(part),
        trees,
    }
}

// Where a link leads: where that record begins, and the number that its link leads back to.
#[derive(Clone, Copy, Debug, PartialEq, Eq)]
pub struct Way {
    pub to: usize,
    pub back: u32,
}

// ---- trees

fn check_tree_link(part: &[u8], e: Extent, i: u32, face: u32) -> Result<(), Kind>
    requires { Known part.now e × (i < e.count) × (face < 6) }
    ensures { kind_of result ≡ tree_to_in (view_of part.now) i face (neighbour_of (stored_tree part.now i) face) }
{
    let count = e.count;
    let at = tree_at(LocalIndex(i));
    let m = neighbour_of(part, at, face);
    if m < count {
        return check_link(part, i, at, face, tree_at(LocalIndex(m)));
    }
    if m - count < e.ghosts {
        return check_link(
            part,
            number_of(part, at),
            at,
            face,
            ghost_at(count, m - count),
        );
    }
    Err(Kind::Neighbour)
}

fn check_tree_face(part: &[u8], e: Extent, i: u32, face: u32) -> Result<(), Kind>
    requires { Known part.now e × (i < e.count) × (face < 6) }
    ensures { kind_of result ≡ tree_face_in (view_of part.now) i face }
{
    let at = tree_at(LocalIndex(i));
    check_form(part, at, i, face)?;
    if !has_face(part, at, face) {
        return Ok(());
    }
    check_tree_link(part, e, i, face)
}

// ---- ghosts

fn check_ghost_link(part: &[u8], e: Extent, j: u32, face: u32) -> Result<(), Kind>
    requires { Known part.now e × (j < e.found) × (face < 6) }
    ensures { kind_of result ≡ ghost_to_in (view_of part.now) j face (neighbour_of (stored_ghost part.now j) face) }
{
    let first = e.first;
    let count = e.count;
    let at = ghost_at(count, j);
    let k = neighbour_of(part, at, face);
    if in_range(first, first + count, GlobalIndex(k)) {
        let tree = to_local(GlobalIndex(k), GlobalIndex(first));
        let own = ghost_index(count, j);
        return check_link(part, own.0, at, face, tree_at(tree));
    }
    if let Some(position) = ghost_with(part, count, e.found, GlobalIndex(k)) {
        return check_link(
            part,
            number_of(part, at),
            at,
            face,
            ghost_at(count, position),
        );
    }
    if e.trees <= k {
        return Err(Kind::Neighbour);
    }
    if !mesh::link::orientation_ok(part, at, face) {
        return Err(Kind::Orientation);
    }
    Ok(())
}

fn check_ghost_face(part: &[u8], e: Extent, j: u32, face: u32) -> Result<(), Kind>
    requires { Known part.now e × (j < e.found) × (face < 6) }
    ensures { kind_of result ≡ ghost_face_in (view_of part.now) j face }
{
    let at = ghost_at(e.count, j);
    check_form(part, at, number_of(part, at), face)?;
    if !has_face(part, at, face) {
        return Ok(());
    }
    check_ghost_link(part, e, j, face)
}

// ---- records: ghosts count on from the number of trees

fn check_face(part: &[u8], e: Extent, i: u32, face: u32) -> Result<(), Kind>
    requires { Known part.now e × (i < e.count + e.found) × (face < 6) }
    ensures { kind_of result ≡ face_in (view_of part.now) i face }
{
    if i < e.count {
        return check_tree_face(part, e, i, face);
    }
    check_ghost_face(part, e, i - e.count, face)
}

fn wrong_face(part: &[u8], e: Extent, i: u32) -> Option<Wrong>
    requires { Known part.now e × (i < e.count + e.found) }
    ensures { wrong_of result ≡ first_face (face_in (view_of part.now) i) }
{
    for face in 0..6 {
        if let Err(kind) = check_face(part, e, i, face) {
            return Some(Wrong { kind, face });
        }
    }
    None
}

fn wrong_tree(part: &[u8], e: Extent, i: u32) -> Option<Wrong>
    requires { Known part.now e × (i < e.count) }
    ensures { wrong_of result ≡ tree_wrong_in (view_of part.now) i }
{
    let in_order = tree_numbered(part, GlobalIndex(e.first), LocalIndex(i));
    if let Err(kind) = check_record(part, tree_at(LocalIndex(i)), in_order, e.dimension) {
        return Some(Wrong { kind, face: 0 });
    }
    wrong_face(part, e, i)
}

// A ghost before the first out of order is in order.
fn wrong_ghost(part: &[u8], e: Extent, j: u32) -> Option<Wrong>
    requires { Known part.now e × (j < e.found) }
    ensures { wrong_of result ≡ ghost_wrong_in (view_of part.now) j }
{
    let at = ghost_at(e.count, j);
    if let Err(kind) = check_record(part, at, true, e.dimension) {
        return Some(Wrong { kind, face: 0 });
    }
    if let Some(wrong) = wrong_face(part, e, e.count + j) {
        return Some(wrong);
    }
    let count = face_count(shape_of(part, at));
    if beside(part, at, count, e.first, e.first + e.count) {
        return None;
    }
    Some(Wrong {
        kind: Kind::Beside,
        face: 0,
    })
}

// ---- the fast check of one record, by the dimension as in part_check::sound. It stands here again since a second caller of that one keeps the compiler from inlining it there, and since a ghost is looked up among those in order.

fn tree_face_right(part: &[u8], e: Extent, i: u32, face: u32) -> bool
    requires { Known part.now e × (i < e.count) × (face < 6) }
    ensures { result ≡ tree_face (link_by_dimension e.dimension) e.count e.ghosts (stored_tree part.now) (ghost_core part.now e.count) i face }
{
    let count = e.count;
    let at = tree_at(LocalIndex(i));
    let m = neighbour_of(part, at, face);
    if m < count {
        return link_ok(part, e.dimension, i, at, face, tree_at(LocalIndex(m)));
    }
    if m - count < e.ghosts {
        return link_ok(
            part,
            e.dimension,
            number_of(part, at),
            at,
            face,
            ghost_at(count, m - count),
        );
    }
    false
}

fn tree_faces_right(part: &[u8], e: Extent, i: u32, faces: u32) -> bool
    requires { Known part.now e × (i < e.count) × (faces ≤ 6) }
    ensures { result ≡ all_below faces (tree_face (link_by_dimension e.dimension) e.count e.ghosts (stored_tree part.now) (ghost_core part.now e.count) i) }
{
    for face in 0..faces {
        if !tree_face_right(part, e, i, face) {
            return false;
        }
    }
    true
}

fn tree_right(part: &[u8], e: Extent, i: u32) -> bool
    requires { Known part.now e × (i < e.count) }
    ensures { result ≡ eqb (tree_wrong_in (view_of part.now) i).kind 0 }
{
    let at = tree_at(LocalIndex(i));
    let shape = shape_of(part, at);
    tree_numbered(part, GlobalIndex(e.first), LocalIndex(i))
        & in_form(part, at, i)
        & (dimension_of(shape) == e.dimension)
        & tree_faces_right(part, e, i, face_count(shape))
}

// Nothing is wrong with a plain tree (part_check::plain).
fn plain_tree(part: &[u8], first: u32, count: u32, ghosts: u32, tree: LocalIndex) -> bool
    requires { (length part.now ≡ part_size count ghosts) × (first + count ≤ max_trees) × (tree.0 < count) }
    ensures { result ≡ true → (tree_numbered first (stored_tree part.now) tree.0 && tree_stored (link_by_dimension 3) count ghosts (stored_tree part.now) (ghost_core part.now count) 3 tree.0) ≡ true }
{
    if !alike(part, tree_at(tree), 2, 6, first + tree.0) {
        return false;
    }
    for face in 0..6 {
        if !plain_face(part, first, count, ghosts, tree, face) {
            return false;
        }
    }
    true
}

// How many trees from the first on are plain: all of a brick. In a loop of its own, as in part_check; it is not begun again behind a tree that is none, which would cost each tetrahedron more than it could gain.
fn plain_run(part: &[u8], e: Extent) -> u32
    requires { Known part.now e }
    ensures { (result ≤ e.count) × (all_below result (λ i. eqb (tree_wrong_in (view_of part.now) i).kind 0) ≡ true) }
{
    let first = e.first;
    let count = e.count;
    let ghosts = e.ghosts;
    if e.dimension != 3 {
        return 0;
    }
    for i in 0..count {
        if !plain_tree(part, first, count, ghosts, LocalIndex(i)) {
            return i;
        }
    }
    count
}

// The first tree that is wrong. What is wrong with it is looked for by the caller, so that this loop stays small.
fn first_tree(part: &[u8], e: Extent) -> Option<u32>
    requires { Known part.now e }
    ensures { IsFirst e.count (λ i. not (eqb (tree_wrong_in (view_of part.now) i).kind 0)) result }
{
    for i in plain_run(part, e)..e.count {
        if !tree_right(part, e, i) {
            return Some(i);
        }
    }
    None
}

// A part with an index of its ghosts in order by their numbers.
#[derive(Clone, Copy)]
struct Ghosts<'a> {
    part: &'a [u8],
    e: Extent,
    marks: &'a [u64],
    behind: &'a [u32],
}

impl Ghosts<'_> {
    // The record that the link of ghost j to tree `neighbour` leads to: one of the range, another ghost, or none that is held.
    fn way(self, j: u32, neighbour: u32) -> Option<Way>
        requires { Sought self.part.now self.e self.marks.now self.behind.now × (j < self.e.found) }
        ensures { GhostWay self.entry.part.now self.entry.e j neighbour result }
    {
        let e = self.e;
        let first = e.first;
        let count = e.count;
        if in_range(first, first + count, GlobalIndex(neighbour)) {
            let tree = to_local(GlobalIndex(neighbour), GlobalIndex(first));
            let own = ghost_index(count, j);
            return Some(Way {
                to: tree_at(tree),
                back: own.0,
            });
        }
        let position = positions::index::find(
            self.marks,
            self.behind,
            e.found,
            GlobalIndex(neighbour),
        );
        if position < e.found {
            return Some(Way {
                to: ghost_at(count, position),
                back: number_of(self.part, ghost_at(count, j)),
            });
        }
        None
    }

    // The rule of a link is called once: called at two places it isn't inlined.
    fn face_right(self, j: u32, face: u32) -> bool
        requires { Sought self.part.now self.e self.marks.now self.behind.now × (j < self.e.found) × (face < 6) }
        ensures { result ≡ ghost_face_of self.entry.part.now self.entry.e j face }
    {
        let part = self.part;
        let e = self.e;
        let at = ghost_at(e.count, j);
        let k = neighbour_of(part, at, face);
        if let Some(way) = self.way(j, k) {
            return link_ok(part, e.dimension, way.back, at, face, way.to);
        }
        (k < e.trees) & mesh::link::orientation_ok(part, at, face)
    }

    fn faces_right(self, j: u32, faces: u32) -> bool
        requires { Sought self.part.now self.e self.marks.now self.behind.now × (j < self.e.found) × (faces ≤ 6) }
        ensures { result ≡ all_below faces (ghost_face_of self.entry.part.now self.entry.e j) }
    {
        for face in 0..faces {
            if !self.face_right(j, face) {
                return false;
            }
        }
        true
    }

    fn right(self, j: u32) -> bool
        requires { Sought self.part.now self.e self.marks.now self.behind.now × (j < self.e.found) }
        ensures { result ≡ eqb (ghost_wrong_in (view_of self.entry.part.now) j).kind 0 }
    {
        let part = self.part;
        let e = self.e;
        let at = ghost_at(e.count, j);
        let shape = shape_of(part, at);
        let faces = face_count(shape);
        in_form(part, at, number_of(part, at))
            & (dimension_of(shape) == e.dimension)
            & beside(part, at, faces, e.first, e.first + e.count)
            & self.faces_right(j, faces)
    }

    // The first that is wrong.
    fn first_wrong(self) -> Option<u32>
        requires { Sought self.part.now self.e self.marks.now self.behind.now }
        ensures { IsFirst self.entry.e.found (λ j. not (eqb (ghost_wrong_in (view_of self.entry.part.now) j).kind 0)) result }
    {
        for j in 0..self.e.found {
            if !self.right(j) {
                return Some(j);
            }
        }
        None
    }
}

// The first of the ghosts in order that is wrong, by an index of so many words.
fn first_ghost_with<const WORDS: usize>(part: &[u8], e: Extent) -> Option<u32>
    requires { Known part.now e × (e.trees ≤ 64 * WORDS) × (WORDS ≤ 16384) }
    ensures { IsFirst e.found (λ j. not (eqb (ghost_wrong_in (view_of part.now) j).kind 0)) result }
{
    let mut marks = [0u64; WORDS];
    let mut behind = [0u32; WORDS];
    positions::index::make(
        part,
        ghost_at(e.count, 0),
        e.found,
        e.trees,
        &mut marks,
        &mut behind,
    );
    let ghosts = Ghosts {
        part,
        e,
        marks: &marks,
        behind: &behind,
    };
    ghosts.first_wrong()
}

// The same. To clear the words for all trees takes longer than to check a small part: up to 65,536 trees have fewer words.
fn first_ghost(part: &[u8], e: Extent) -> Option<u32>
    requires { Known part.now e }
    ensures { IsFirst e.found (λ j. not (eqb (ghost_wrong_in (view_of part.now) j).kind 0)) result }
{
    if e.trees <= 65536 {
        return first_ghost_with::<1024>(part, e);
    }
    first_ghost_with::<16384>(part, e)
}

// The first record that is wrong. Of the ghosts out of order the first is wrong for that alone, so that the search ends there at the latest.
pub fn first_wrong(part: &[u8], e: Extent) -> Option<Place>
    requires { Known part.now e }
    ensures { fault_of result ≡ first_fault 8 (part_count part.now + part_ghost_count part.now) (wrong_in (view_of part.now)) }
{
    if let Some(i) = first_tree(part, e) {
        let wrong = wrong_tree(part, e, i)?;
        return Some(Place {
            fault: Refusal::Part,
            at: i,
            wrong,
        });
    }
    if let Some(j) = first_ghost(part, e) {
        let wrong = wrong_ghost(part, e, j)?;
        return Some(Place {
            fault: Refusal::Part,
            at: e.count + j,
            wrong,
        });
    }
    if e.found < e.ghosts {
        return Some(Place {
            fault: Refusal::Part,
            at: e.count + e.found,
            wrong: Wrong {
                kind: Kind::Number,
                face: 0,
            },
        });
    }
    None
}
