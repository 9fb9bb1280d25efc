// Plain trees: those whose neighbours have their shape, above all hexahedra, as in a brick. Their links need fewer tests. These tests answer in one direction: what doesn't pass them is looked at by the general ones.
ghost use Rattle.std.specs.Prelude.{◌≡◌, true, Some, IfSome, ◌+◌, ◌*◌, ◌≤◌, ◌<◌, length};
ghost use Rattle.encoding.specs.Pieces.{piece};
ghost use Rattle.records.specs.Record.{core_size, tree_size, shape_of};
ghost use Rattle.mesh.specs.Mesh.{mesh_header, mesh_core};
ghost use Rattle.mesh.specs.Means.{link_by_dimension, links_up, links_down, tree_from_above, SeenAs, RunAs};

use crate::layout::tree_at;
use crate::link::{answered_there, corners_fit};
use crate::sound::{Counts, Run};
use records::read::{code_of, neighbour_of, shape_of};

// The rule of a link in dimension 3 between two records of one shape.
pub fn link_alike(bs: &[u8], shape: u32, back: u32, at: usize, face: u32, to: usize) -> bool
    requires { (at + core_size ≤ length bs.now) × (face < 6) × (to + core_size ≤ length bs.now) × (shape_of (piece bs.now at core_size) ≡ shape) }
    ensures { result ≡ true → link_by_dimension 3 back (piece bs.now at core_size) face (piece bs.now to core_size) ≡ true }
{
    let code = code_of(bs, at, face);
    let there = code % 6;
    (shape_of(bs, to) == shape)
        & corners_fit(code / 6, shape, face, shape, there)
        & answered_there(bs, back, code, face, to, there)
}

// A hexahedron of a mesh; a link that leads up is only counted.
fn plain_tree(mesh: &[u8], trees: u32, k: u32) -> Option<Counts>
    requires { (length mesh.now ≡ mesh_header + tree_size * trees) × (k < trees) }
    ensures { IfSome result (λ seen. SeenAs (tree_from_above (mesh_core mesh.now) 3 trees k) (links_up (mesh_core mesh.now) k) (links_down (mesh_core mesh.now) k) 6 (Some seen)) }
{
    let at = tree_at(k);
    if !records::form::alike(mesh, at, 2, 6, k) {
        return None;
    }
    let mut ups = 0;
    let mut downs = 0;
    for face in 0..6 {
        let n = neighbour_of(mesh, at, face);
        if k < n {
            if trees <= n {
                return None;
            }
            ups += 1;
        } else {
            // a link to the tree itself may be a boundary, which has orientation 0
            if !(link_alike(mesh, 2, k, at, face, tree_at(n))
                & ((n != k) | (code_of(mesh, at, face) < 6)))
            {
                return None;
            }
            downs += u64::from(n < k);
        }
    }
    Some(Counts { ups, downs })
}

// Goes on with a run in dimension 3, as far as the trees are plain. By itself, so that few values are at hand in this loop, and all in registers.
fn plain_run(mesh: &[u8], trees: u32, begun: Run) -> Run
    requires { (length mesh.now ≡ mesh_header + tree_size * trees) × (begun.next ≤ trees) × (begun.seen.ups ≤ 6 * begun.next) × (begun.seen.downs ≤ 6 * begun.next) }
    ensures { RunAs (tree_from_above (mesh_core mesh.now) 3 trees) (links_up (mesh_core mesh.now)) (links_down (mesh_core mesh.now)) trees begun result }
{
    let mut ups = begun.seen.ups;
    let mut downs = begun.seen.downs;
    for next in begun.next..trees {
        let Some(seen) = plain_tree(mesh, trees, next) else {
            return Run {
                next,
                seen: Counts { ups, downs },
            };
        };
        ups += seen.ups;
        downs += seen.downs;
    }
    Run {
        next: trees,
        seen: Counts { ups, downs },
    }
}

// The same in any dimension; where the next tree is no hexahedron it costs one test.
pub fn run_on(mesh: &[u8], dimension: u32, trees: u32, begun: Run) -> Run
    requires { (length mesh.now ≡ mesh_header + tree_size * trees) × (begun.next < trees) × (begun.seen.ups ≤ 6 * begun.next) × (begun.seen.downs ≤ 6 * begun.next) }
    ensures { RunAs (tree_from_above (mesh_core mesh.now) dimension trees) (links_up (mesh_core mesh.now)) (links_down (mesh_core mesh.now)) trees begun result }
{
    if shape_of(mesh, tree_at(begun.next)) != 2 {
        return begun;
    }
    if dimension != 3 {
        return begun;
    }
    plain_run(mesh, trees, begun)
}
