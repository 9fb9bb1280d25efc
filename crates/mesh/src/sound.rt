// Whether a whole mesh is sound: its header, each tree's record, and each link looked at from the end with the higher number. Where as many links lead up as down, each link up is then the answer to one down (proofs/FromAbove.antt).
ghost use Rattle.std.specs.Prelude.{◌≡◌, true, cond, ◌+◌, ◌*◌, ◌≤◌, ◌<◌, length};
ghost use Rattle.encoding.specs.Below.{all_below, count_below};
ghost use Rattle.encoding.specs.Pieces.{piece};
ghost use Rattle.records.specs.Record.{core_size, tree_size};
ghost use Rattle.mesh.specs.Mesh.{mesh_header, mesh_core, mesh_sound};
ghost use Rattle.mesh.specs.Means.{packed, link_by_dimension, leads_inside, listed_link, down_sound, listed_sound, leads_up, leads_down, links_up, links_down, alone_by_dimension, face_from_above, tree_from_above, trees_from_above, SeenAs, SortedAs};

use crate::layout::{dimension, header_sound, tree_at, trees};
use crate::link::{answered_there, corners_fit, parted};
use crate::plain::run_on;

// How many links lead up and down.
#[derive(Clone, Copy)]
pub struct Counts {
    pub ups: u64,
    pub downs: u64,
}

// A run of trees: those before `next` pass, and have so many links up and down.
#[derive(Clone, Copy)]
pub struct Run {
    pub next: u32,
    pub seen: Counts,
}

// The rule of a link, as `link::link_ok` has it: a function with one caller costs no call.
fn link_down(mesh: &[u8], dimension: u32, k: u32, at: usize, face: u32, to: usize) -> bool
    requires { (at + core_size ≤ length mesh.now) × (face < 6) × (to + core_size ≤ length mesh.now) }
    ensures { result ≡ link_by_dimension dimension k (piece mesh.now at core_size) face (piece mesh.now to core_size) }
{
    let code = records::read::code_of(mesh, at, face);
    let across = parted(dimension, code);
    let there = across.face;
    if !answered_there(mesh, k, code, face, to, there) {
        return false;
    }
    corners_fit(
        across.orientation,
        records::read::shape_of(mesh, at),
        face,
        records::read::shape_of(mesh, to),
        there,
    )
}

// A link that doesn't lead up.
fn face_sound(mesh: &[u8], dimension: u32, trees: u32, k: u32, face: u32) -> bool
    requires { (length mesh.now ≡ mesh_header + tree_size * trees) × (k < trees) × (face < 6) × (listed_link (mesh_core mesh.now) k face ≡ true) }
    ensures { result ≡ down_sound (mesh_core mesh.now) dimension k face }
{
    let at = tree_at(k);
    let n = records::read::neighbour_of(mesh, at, face);
    if !records::form::boundary_ok(mesh, at, k, face) {
        return false;
    }
    link_down(mesh, dimension, k, at, face, tree_at(n))
}

// The links of a record, sorted: those that don't lead up as digits to base 8, and how many lead up and down.
#[derive(Clone, Copy)]
pub struct Links {
    pub list: u32,
    pub counts: Counts,
}

// A list with one more face, if it is listed.
pub fn pushed(list: u32, face: u32, listed: bool) -> u32
    requires { (list ≤ 5349) × (face < 6) }
    ensures { result ≡ cond listed (8 * list + (face + 1)) list }
{
    if listed {
        return 8 * list + (face + 1);
    }
    list
}

// No branch hangs on where a link leads: with random links it would be guessed wrong every second time.
fn sorted(mesh: &[u8], trees: u32, k: u32, faces: u32) -> Option<Links>
    requires { (length mesh.now ≡ mesh_header + tree_size * trees) × (k < trees) × (faces ≤ 6) }
    ensures { SortedAs (all_below faces (leads_inside (mesh_core mesh.now) trees k)) (count_below faces (leads_up (mesh_core mesh.now) k)) (count_below faces (leads_down (mesh_core mesh.now) k)) (packed faces (listed_link (mesh_core mesh.now) k)) result }
{
    let at = tree_at(k);
    let mut list = 0;
    let mut ups = 0;
    let mut downs = 0;
    for face in 0..faces {
        let n = records::read::neighbour_of(mesh, at, face);
        if trees <= n {
            return None;
        }
        list = pushed(list, face, n <= k);
        ups += u64::from(k < n);
        downs += u64::from(n < k);
    }
    Some(Links {
        list,
        counts: Counts { ups, downs },
    })
}

// The faces of a list, the last first.
fn listed_sound(mesh: &[u8], dimension: u32, trees: u32, k: u32, faces: u32, list: u32) -> bool
    requires { (length mesh.now ≡ mesh_header + tree_size * trees) × (k < trees) × (faces ≤ 6) × (list ≡ packed faces (listed_link (mesh_core mesh.now) k)) }
    ensures { result ≡ all_below faces (listed_sound (mesh_core mesh.now) dimension k) }
{
    let mut left = list;
    // the digits of the list, the last first: no index is counted
    while 0 < left {
        if !face_sound(mesh, dimension, trees, k, left % 8 - 1) {
            return false;
        }
        left = left / 8;
    }
    true
}

fn faces_sound(mesh: &[u8], dimension: u32, trees: u32, k: u32, faces: u32) -> Option<Counts>
    requires { (length mesh.now ≡ mesh_header + tree_size * trees) × (k < trees) × (faces ≤ 6) }
    ensures { SeenAs (all_below faces (face_from_above (mesh_core mesh.now) dimension trees k)) (count_below faces (leads_up (mesh_core mesh.now) k)) (count_below faces (leads_down (mesh_core mesh.now) k)) 6 result }
{
    let links = sorted(mesh, trees, k, faces)?;
    if !listed_sound(mesh, dimension, trees, k, faces, links.list) {
        return None;
    }
    Some(links.counts)
}

fn alone(mesh: &[u8], dimension: u32, k: u32, at: usize) -> bool
    requires { at + core_size ≤ length mesh.now }
    ensures { result ≡ alone_by_dimension dimension k (piece mesh.now at core_size) }
{
    let shape = records::read::shape_of(mesh, at);
    records::shape::shape_ok(shape)
        & records::form::zeros_ok(mesh, at)
        & records::form::region_ok(mesh, at)
        & (records::read::number_of(mesh, at) == k)
        & (records::shape::dimension_of(shape) == dimension)
}

fn tree_sound(mesh: &[u8], dimension: u32, trees: u32, k: u32) -> Option<Counts>
    requires { (length mesh.now ≡ mesh_header + tree_size * trees) × (k < trees) }
    ensures { SeenAs (tree_from_above (mesh_core mesh.now) dimension trees k) (links_up (mesh_core mesh.now) k) (links_down (mesh_core mesh.now) k) 6 result }
{
    let at = tree_at(k);
    if !alone(mesh, dimension, k, at) {
        return None;
    }
    let faces = records::shape::face_count(records::read::shape_of(mesh, at));
    if !records::form::unused_from(mesh, at, faces) {
        return None;
    }
    faces_sound(mesh, dimension, trees, k, faces)
}

fn trees_sound(mesh: &[u8], dimension: u32, trees: u32) -> bool
    requires { length mesh.now ≡ mesh_header + tree_size * trees }
    ensures { result ≡ trees_from_above (mesh_core mesh.now) dimension trees }
{
    let mut run = Run {
        next: 0,
        seen: Counts { ups: 0, downs: 0 },
    };
    // a run may pass over many trees
    while run.next < trees {
        run = run_on(mesh, dimension, trees, run);
        if run.next == trees {
            break;
        }
        let Some(seen) = tree_sound(mesh, dimension, trees, run.next) else {
            return false;
        };
        run = Run {
            next: run.next + 1,
            seen: Counts {
                ups: run.seen.ups + seen.ups,
                downs: run.seen.downs + seen.downs,
            },
        };
    }
    run.seen.ups == run.seen.downs
}

pub fn sound(mesh: &[u8]) -> bool
    ensures { result ≡ mesh_sound mesh.now }
{
    if !header_sound(mesh) {
        return false;
    }
    trees_sound(mesh, dimension(mesh), trees(mesh))
}
