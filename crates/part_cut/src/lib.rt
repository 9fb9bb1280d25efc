// Cutting the part for a table and a rank out of a whole mesh.
#![tactic(auto)]

ghost use Rattle.std.specs.Prelude.{◌≡◌, length};
ghost use Rattle.encoding.specs.Refusal.{first_failed};
ghost use Rattle.encoding.specs.Refusals.{refusal_of, length_of};
ghost use Rattle.part.specs.Cut.{cut_part};
ghost use Rattle.part_cut.specs.Calls.{cut_checks, part_length_of, cut_part_of};
ghost use Rattle.part_cut.specs.Means.{CutRoom};

use crate::ghosts::measure;
use encoding::refusal::Refusal;
use part::layout::ghost_at;

pub mod ghosts;
pub mod locals;
mod write;

// The length, where no check fails, by a set of ghosts of so many words.
fn length_with<const WORDS: usize>(mesh: &[u8], table: &[u8], rank: u32) -> u64
    requires { CutRoom mesh.now table.now rank WORDS }
    ensures { result ≡ length (cut_part mesh.now table.now rank) }
{
    let mut marks = [0u64; WORDS];
    let mut behind = [0u32; WORDS];
    let part = measure(mesh, table, rank, &mut marks, &mut behind);
    ghost_at(part.trees, part.ghosts) as u64
}

// How long the part of a whole mesh for a table and a rank is (2, 3, 5, 7). To clear the words for all trees takes longer than to measure a small part: up to 65,536 trees have fewer words.
pub fn part_length(mesh: &[u8], table: &[u8], rank: u32) -> Result<u64, Refusal>
    ensures { length_of result ≡ part_length_of mesh.now table.now rank }
{
    check_cut(mesh, table, rank)?;
    if mesh::layout::trees(mesh) <= 65536 {
        return Ok(length_with::<1024>(mesh, table, rank));
    }
    Ok(length_with::<16384>(mesh, table, rank))
}

// Cuts the part out, where no check fails before that of the room (22), by a set of ghosts of so many words.
fn cut_with<const WORDS: usize>(
    mesh: &[u8],
    table: &[u8],
    rank: u32,
    out: &mut [u8],
) -> Result<u64, Refusal>
    requires { CutRoom mesh.now table.now rank WORDS }
    ensures { (length_of result, out.new) ≡ cut_part_of mesh.now table.now rank out.old }
{
    let mut marks = [0u64; WORDS];
    let mut behind = [0u32; WORDS];
    let part = measure(mesh, table, rank, &mut marks, &mut behind);
    let n = ghost_at(part.trees, part.ghosts);
    if out.len() < n {
        return Err(Refusal::Buffer);
    }
    let ranks = offsets::table::ranks(table) as u32;
    write::write(mesh, ranks, rank, part, &marks, &behind, &mut *out);
    Ok(n as u64)
}

// Cut out the part of a whole mesh for a table and a rank (2, 3, 5, 7, 22).
pub fn cut_part(mesh: &[u8], table: &[u8], rank: u32, out: &mut [u8]) -> Result<u64, Refusal>
    ensures { (length_of result, out.new) ≡ cut_part_of mesh.now table.now rank out.old }
{
    check_cut(mesh, table, rank)?;
    if mesh::layout::trees(mesh) <= 65536 {
        return cut_with::<1024>(mesh, table, rank, &mut *out);
    }
    cut_with::<16384>(mesh, table, rank, &mut *out)
}

// The checks of a mesh, a table and a rank (2, 3, 5, 7).
fn check_cut(mesh: &[u8], table: &[u8], rank: u32) -> Result<(), Refusal>
    ensures { refusal_of result ≡ first_failed (cut_checks mesh.now table.now rank) }
{
    part::range::check_rank(table, rank)?;
    if !mesh::sound::sound(mesh) {
        return Err(Refusal::Mesh);
    }
    if mesh::layout::trees(mesh) as u64 != offsets::table::trees(table) {
        return Err(Refusal::Mesh);
    }
    Ok(())
}
