// Ghosts that stand ascending from byte `at` on, with their neighbours as global numbers and the index of their own numbers. A link that leads up, to a tree of the range or to a higher ghost, is only counted; one to a ghost that isn't higher has to obey the rules.
ghost use Rattle.std.specs.Prelude.{◌≡◌, true, ◌&&◌, ◌+◌, ◌*◌, ◌≤◌, ◌<◌, length};
ghost use Rattle.encoding.specs.Below.{all_below, any_below, count_below, sum_below};
ghost use Rattle.encoding.specs.Pieces.{piece};
ghost use Rattle.records.specs.Record.{core_size, number_of};
ghost use Rattle.mesh.specs.Means.{link_by_dimension, packed, SeenAs, SortedAs};
ghost use Rattle.part.specs.Means.{neighbour_in};
ghost use Rattle.ghost_links.specs.Means.{core_from, form_alone, ghost_up, ghost_down, ghost_listed, ghost_ups, ghost_downs, ghost_low, ghost_answered, ghost_face_down, ghost_from_one_end, GhostsMarked};

use mesh::link::{answered_there, corners_fit, orientation_ok, parted};
use mesh::sound::{Counts, Links, pushed};
use part::range::within;
use records::index::GlobalIndex;

// What a record shows without its links.
pub fn alone(bs: &[u8], dimension: u32, at: usize) -> bool
    requires { at + core_size ≤ length bs.now }
    ensures { result ≡ form_alone dimension (piece bs.now at core_size) }
{
    let shape = records::read::shape_of(bs, at);
    records::shape::shape_ok(shape)
        & records::form::zeros_ok(bs, at)
        & records::form::region_ok(bs, at)
        & records::form::unused_from(bs, at, records::shape::face_count(shape))
        & (records::shape::dimension_of(shape) == dimension)
}

// `ghosts` core records that ascend from byte `at`, beside `count` trees from number `first`; `trees` is K.
#[derive(Clone, Copy)]
pub struct Ghosts {
    pub at: usize,
    pub ghosts: u32,
    pub first: u32,
    pub count: u32,
    pub dimension: u32,
    pub trees: u32,
}

// The links of a ghost, sorted: those to ghosts that aren't higher as digits to base 8, and how many lead up and down; and whether one leads into the range. No branch hangs on where a link leads: with random links it would be guessed wrong every second time.
fn sorted(bs: &[u8], x: Ghosts, marks: &[u64], behind: &[u32], j: u32, faces: u32) -> Option<Links>
    requires { GhostsMarked bs.now x.at x.ghosts x.first x.count x.trees marks.now behind.now × (j < x.ghosts) × (faces ≤ 6) }
    ensures { SortedAs (all_below faces (ghost_low (core_from bs.now x.at) x.trees j) && any_below faces (neighbour_in x.first (x.first + x.count) (core_from bs.now x.at j))) (count_below faces (ghost_up x.first x.count x.ghosts (core_from bs.now x.at) j)) (count_below faces (ghost_down x.ghosts (core_from bs.now x.at) j)) (packed faces (ghost_listed x.ghosts (core_from bs.now x.at) j)) result }
{
    let from = x.at + 40 * (j as usize);
    let own = records::read::number_of(bs, from);
    let end = x.first + x.count;
    let mut list = 0;
    let mut ups = 0;
    let mut downs = 0;
    let mut met = false;
    for face in 0..faces {
        let k = records::read::neighbour_of(bs, from, face);
        if !((k < x.trees) & orientation_ok(bs, from, face)) {
            return None;
        }
        let inside = within(x.first, end, k);
        let held = bits::set::in_set(marks, k);
        let low = k <= own;
        list = pushed(list, face, held & low);
        ups += u64::from(inside | (held & !low));
        downs += u64::from(held & (k < own));
        met |= inside;
    }
    if !met {
        return None;
    }
    Some(Links {
        list,
        counts: Counts { ups, downs },
    })
}

// The rule of a link, as `mesh::link::link_ok` has it: a function with one caller costs no call.
fn link_down(bs: &[u8], dimension: u32, back: u32, from: usize, face: u32, to: usize) -> bool
    requires { (from + core_size ≤ length bs.now) × (face < 6) × (to + core_size ≤ length bs.now) }
    ensures { result ≡ link_by_dimension dimension back (piece bs.now from core_size) face (piece bs.now to core_size) }
{
    let code = records::read::code_of(bs, from, face);
    let across = parted(dimension, code);
    let there = across.face;
    if !answered_there(bs, back, code, face, to, there) {
        return false;
    }
    corners_fit(
        across.orientation,
        records::read::shape_of(bs, from),
        face,
        records::read::shape_of(bs, to),
        there,
    )
}

// A link to a ghost that isn't higher.
fn face_linked(bs: &[u8], x: Ghosts, marks: &[u64], behind: &[u32], j: u32, face: u32) -> bool
    requires { GhostsMarked bs.now x.at x.ghosts x.first x.count x.trees marks.now behind.now × (j < x.ghosts) × (face < 6) × (ghost_listed x.ghosts (core_from bs.now x.at) j face ≡ true) }
    ensures { result ≡ ghost_answered (link_by_dimension x.dimension) x.ghosts (core_from bs.now x.at) j face }
{
    let from = x.at + 40 * (j as usize);
    let own = records::read::number_of(bs, from);
    let k = records::read::neighbour_of(bs, from, face);
    if !records::form::boundary_ok(bs, from, own, face) {
        return false;
    }
    let position = positions::index::find_near(
        bs,
        x.at,
        marks,
        behind,
        x.ghosts,
        j,
        GlobalIndex(k),
    );
    link_down(
        bs,
        x.dimension,
        own,
        from,
        face,
        x.at + 40 * (position as usize),
    )
}

// The faces of a list, the last first.
fn listed_linked(
    bs: &[u8],
    x: Ghosts,
    marks: &[u64],
    behind: &[u32],
    j: u32,
    faces: u32,
    list: u32,
) -> bool
    requires { GhostsMarked bs.now x.at x.ghosts x.first x.count x.trees marks.now behind.now × (j < x.ghosts) × (faces ≤ 6) × (list ≡ packed faces (ghost_listed x.ghosts (core_from bs.now x.at) j)) }
    ensures { result ≡ all_below faces (ghost_face_down (link_by_dimension x.dimension) x.ghosts (core_from bs.now x.at) j) }
{
    let mut left = list;
    // the digits of the list, the last first: no index is counted
    while 0 < left {
        if !face_linked(bs, x, marks, behind, j, left % 8 - 1) {
            return false;
        }
        left = left / 8;
    }
    true
}

fn ghost_linked(bs: &[u8], x: Ghosts, marks: &[u64], behind: &[u32], j: u32) -> Option<Counts>
    requires { GhostsMarked bs.now x.at x.ghosts x.first x.count x.trees marks.now behind.now × (j < x.ghosts) }
    ensures { SeenAs (ghost_from_one_end (link_by_dimension x.dimension) x.ghosts (core_from bs.now x.at) x.first x.count x.dimension x.trees j) (ghost_ups x.first x.count x.ghosts (core_from bs.now x.at) j) (ghost_downs x.ghosts (core_from bs.now x.at) j) 6 result }
{
    let from = x.at + 40 * (j as usize);
    if !alone(bs, x.dimension, from) {
        return None;
    }
    let faces = records::shape::face_count(records::read::shape_of(bs, from));
    let links = sorted(bs, x, marks, behind, j, faces)?;
    if !listed_linked(bs, x, marks, behind, j, faces, links.list) {
        return None;
    }
    Some(links.counts)
}

// All ghosts of the trees from `first` on: whether they have the dimension, each beside a tree, and their links.
pub fn ghosts_linked(bs: &[u8], x: Ghosts, marks: &[u64], behind: &[u32]) -> Option<Counts>
    requires { GhostsMarked bs.now x.at x.ghosts x.first x.count x.trees marks.now behind.now }
    ensures { SeenAs (all_below x.ghosts (ghost_from_one_end (link_by_dimension x.dimension) x.ghosts (core_from bs.now x.at) x.first x.count x.dimension x.trees)) (sum_below x.ghosts (ghost_ups x.first x.count x.ghosts (core_from bs.now x.at))) (sum_below x.ghosts (ghost_downs x.ghosts (core_from bs.now x.at))) (6 * x.ghosts) result }
{
    let mut ups = 0;
    let mut downs = 0;
    for j in 0..x.ghosts {
        let seen = ghost_linked(bs, x, marks, behind, j)?;
        ups += seen.ups;
        downs += seen.downs;
    }
    Some(Counts { ups, downs })
}
