// Joining the slots of an area into a part: the last checks, then the header, the trees with local indices, the ghosts.
ghost use Rattle.std.specs.Prelude.{◌≡◌, ◌+◌, ◌*◌, ◌≤◌, length};
ghost use Rattle.encoding.specs.Pieces.{piece, splice};
ghost use Rattle.encoding.specs.Refusals.{length_of};
ghost use Rattle.records.specs.Record.{core_size};
ghost use Rattle.positions.specs.Means.{Blank};
ghost use Rattle.area.specs.Area.{area_k, area_new};
ghost use Rattle.area.specs.Close.{joined_part, close_of};
ghost use Rattle.close_check.specs.Means.{Complete, GhostsIndexed};
ghost use Rattle.close.specs.Means.{GhostsRoom, JoinRoom};

use area::layout::{ghost_slots_place, slots_place};
use area::read::{count, dimension, ghosts, rank, ranks, trees};
use close_check::join::{first_tree, join_by};
use encoding::refusal::Refusal;

// Copies the core records from byte `from` of an area.
fn write_ghosts(area: &[u8], from: usize, count: u32, out: &mut [u8], to: usize)
    requires { GhostsRoom area.now out.old from count to }
    ensures { out.new ≡ splice out.old to (piece area.now from (core_size * count)) }
{
    let words = 5 * (count as usize);
    let size = 40 * (count as usize);
    encoding::bytes::copy_words(&mut out[to..to + size], &area[from..from + size], words);
}

// Writes the joined part of a sound area, by the index of its ghosts.
fn write_part(area: &[u8], marks: &[u64], behind: &[u32], out: &mut [u8])
    requires { JoinRoom area.now out.old × GhostsIndexed area.now marks.now behind.now }
    ensures { out.new ≡ splice out.old 0 (joined_part area.now) }
{
    let dimension = dimension(area);
    let ranks = ranks(area);
    let tree = first_tree(area);
    let first = tree.0;
    let n = count(area);
    let ghosts = ghosts(area);
    let from = slots_place(ranks);
    let at = ghost_slots_place(ranks, n);
    let faces = records::shape::faces_in(dimension);
    encoding::header::write_eight(
        &mut *out,
        [
            dimension,
            trees(area),
            ranks as u32,
            rank(area) as u32,
            first,
            n,
            ghosts,
            0,
        ],
    );
    part_cut::locals::write_trees(
        area, from, faces, first, n, marks, behind, ghosts, &mut *out,
    );
    write_ghosts(area, at, ghosts, &mut *out, 32 + 64 * (n as usize));
}

// What is left of a close once every due sender is heard (21, 22). The words hold the index of the ghosts, which the check and the writing share. Not generic, so that it stands in the library once.
pub fn close_by(
    area: &[u8],
    out: &mut [u8],
    marks: &mut [u64],
    behind: &mut [u32],
) -> Result<u64, Refusal>
    requires { Complete area.now (area_new area.now) × (area_k area.now ≤ 64 * length marks.old) × Blank marks.old behind.old }
    ensures { (length_of result, out.new) ≡ close_of area.now out.old }
{
    let n = count(area);
    let ghosts = ghosts(area);
    let at = ghost_slots_place(ranks(area), n);
    positions::index::make(area, at, ghosts, trees(area), &mut *marks, &mut *behind);
    if !join_by(area, &*marks, &*behind) {
        return Err(Refusal::Join);
    }
    let length = part::layout::ghost_at(n, ghosts);
    if out.len() < length {
        return Err(Refusal::Buffer);
    }
    write_part(area, &*marks, &*behind, &mut *out);
    Ok(length as u64)
}
