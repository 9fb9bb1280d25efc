// What is wrong with a tree of a whole mesh, and the first one.
ghost use Rattle.std.specs.Prelude.{◌≡◌, true, ◌+◌, ◌*◌, ◌≤◌, ◌<◌, length};
ghost use Rattle.encoding.specs.Below.{all_below};
ghost use Rattle.records.specs.Shape.{shape_ok, dimension_of, face_count};
ghost use Rattle.records.specs.Record.{tree_size};
ghost use Rattle.mesh.specs.Mesh.{mesh_header, mesh_core};
ghost use Rattle.mesh.specs.Means.{face_by_dimension, tree_by_dimension};
ghost use Rattle.faults.specs.Answer.{first_fault};
ghost use Rattle.faults.specs.Kinds.{fault_of, kind_of, wrong_of};
ghost use Rattle.faults.specs.Record.{first_face};
ghost use Rattle.faults.specs.Mesh.{tree_face_kind, tree_wrong};

use crate::answer::{Kind, Place, Wrong};
use crate::record::{check_form, check_link, check_record, has_face};
use encoding::refusal::Refusal;
use mesh::layout::tree_at;
use mesh::link::link_ok;
use mesh::plain::link_alike;
use records::read::{code_of, neighbour_of, number_of, shape_of};

// The neighbour's record is read only once its number is known to be below K.
fn check_face(mesh: &[u8], trees: u32, k: u32, face: u32) -> Result<(), Kind>
    requires { (length mesh.now ≡ mesh_header + tree_size * trees) × (k < trees) × (face < 6) }
    ensures { kind_of result ≡ tree_face_kind (mesh_core mesh.now) trees k face }
{
    let at = tree_at(k);
    check_form(mesh, at, k, face)?;
    if !has_face(mesh, at, face) {
        return Ok(());
    }
    let n = neighbour_of(mesh, at, face);
    if trees <= n {
        return Err(Kind::Neighbour);
    }
    check_link(mesh, k, at, face, tree_at(n))
}

fn wrong_face(mesh: &[u8], trees: u32, k: u32) -> Option<Wrong>
    requires { (length mesh.now ≡ mesh_header + tree_size * trees) × (k < trees) }
    ensures { wrong_of result ≡ first_face (tree_face_kind (mesh_core mesh.now) trees k) }
{
    for face in 0..6 {
        if let Err(kind) = check_face(mesh, trees, k, face) {
            return Some(Wrong { kind, face });
        }
    }
    None
}

fn wrong_tree(mesh: &[u8], dimension: u32, trees: u32, k: u32) -> Option<Wrong>
    requires { (length mesh.now ≡ mesh_header + tree_size * trees) × (k < trees) }
    ensures { wrong_of result ≡ tree_wrong (mesh_core mesh.now) dimension trees k }
{
    let at = tree_at(k);
    if let Err(kind) = check_record(mesh, at, number_of(mesh, at) == k, dimension) {
        return Some(Wrong { kind, face: 0 });
    }
    wrong_face(mesh, trees, k)
}

// ---- the check of one tree, as mesh::sound makes it. It stands here again since a second caller of that one keeps the compiler from inlining it there, which would cost the check of a mesh two fifths more.

fn face_right(mesh: &[u8], dimension: u32, trees: u32, k: u32, face: u32) -> bool
    requires { (length mesh.now ≡ mesh_header + tree_size * trees) × (k < trees) × (face < 6) }
    ensures { result ≡ face_by_dimension (mesh_core mesh.now) dimension trees k face }
{
    let at = tree_at(k);
    let n = neighbour_of(mesh, at, face);
    if trees <= n {
        return false;
    }
    link_ok(mesh, dimension, k, at, face, tree_at(n))
}

fn faces_right(mesh: &[u8], dimension: u32, trees: u32, k: u32, faces: u32) -> bool
    requires { (length mesh.now ≡ mesh_header + tree_size * trees) × (k < trees) × (faces ≤ 6) }
    ensures { result ≡ all_below faces (face_by_dimension (mesh_core mesh.now) dimension trees k) }
{
    for at in 0..faces {
        if !face_right(mesh, dimension, trees, k, at) {
            return false;
        }
    }
    true
}

fn tree_right(mesh: &[u8], dimension: u32, trees: u32, k: u32) -> bool
    requires { (length mesh.now ≡ mesh_header + tree_size * trees) × (k < trees) }
    ensures { result ≡ tree_by_dimension (mesh_core mesh.now) dimension trees k }
{
    let at = tree_at(k);
    let shape = shape_of(mesh, at);
    records::form::in_form(mesh, at, k)
        & (number_of(mesh, at) == k)
        & (records::shape::dimension_of(shape) == dimension)
        & faces_right(mesh, dimension, trees, k, records::shape::face_count(shape))
}

// ---- trees of one shape, as most meshes have: the links between them need fewer tests. These answer in one direction: a tree that doesn't pass is looked at by those above.

// A tree of this shape, which is one of dimension 3, whose neighbours have it too.
fn plain_tree(mesh: &[u8], trees: u32, shape: u32, faces: u32, k: u32) -> bool
    requires { (length mesh.now ≡ mesh_header + tree_size * trees) × (k < trees) × (shape_ok shape ≡ true) × (dimension_of shape ≡ 3) × (faces ≡ face_count shape) × (faces ≤ 6) }
    ensures { result ≡ true → tree_by_dimension (mesh_core mesh.now) 3 trees k ≡ true }
{
    let at = tree_at(k);
    if !records::form::alike(mesh, at, shape, faces, k) {
        return false;
    }
    for next in 0..faces {
        let n = neighbour_of(mesh, at, next);
        if trees <= n {
            return false;
        }
        // a link to the tree itself may be a boundary, which has orientation 0
        if !(link_alike(mesh, shape, k, at, next, tree_at(n))
            & ((n != k) | (code_of(mesh, at, next) < 6)))
        {
            return false;
        }
    }
    true
}

// How many trees from the first on have its shape, and nothing wrong. By itself, so that few values are at hand in this loop, and all in registers.
fn plain_run(mesh: &[u8], dimension: u32, trees: u32) -> u32
    requires { length mesh.now ≡ mesh_header + tree_size * trees }
    ensures { (result ≤ trees) × (all_below result (tree_by_dimension (mesh_core mesh.now) dimension trees) ≡ true) }
{
    if dimension != 3 {
        return 0;
    }
    if trees == 0 {
        return 0;
    }
    let shape = shape_of(mesh, tree_at(0));
    if !records::shape::shape_ok(shape) {
        return 0;
    }
    if records::shape::dimension_of(shape) != 3 {
        return 0;
    }
    let faces = records::shape::face_count(shape);
    for k in 0..trees {
        if !plain_tree(mesh, trees, shape, faces, k) {
            return k;
        }
    }
    trees
}

// ---- all trees

// The first tree that is wrong. The check of a tree is faster than the search of its record, which is made only where the check fails.
pub fn first_wrong(mesh: &[u8], dimension: u32, trees: u32) -> Option<Place>
    requires { length mesh.now ≡ mesh_header + tree_size * trees }
    ensures { fault_of result ≡ first_fault 7 trees (tree_wrong (mesh_core mesh.now) dimension trees) }
{
    for k in plain_run(mesh, dimension, trees)..trees {
        if !tree_right(mesh, dimension, trees, k) {
            if let Some(wrong) = wrong_tree(mesh, dimension, trees, k) {
                return Some(Place {
                    fault: Refusal::Mesh,
                    at: k,
                    wrong,
                });
            }
        }
    }
    None
}
