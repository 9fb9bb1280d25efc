// What stands across a face of a tree of a part.
#![tactic(auto)]

ghost use Rattle.std.specs.Prelude.{◌≡◌};
ghost use Rattle.part_neighbour.specs.Calls.{neighbour_answer, answered_of};

use encoding::refusal::Refusal;
use link::Neighbour;
use part::range::check_rank;
use records::index::LocalIndex;

pub mod link;

// What stands across a face of the tree with a local index (2, 3, 5, 8).
pub fn neighbour_of(
    part: &[u8],
    table: &[u8],
    rank: u32,
    local: LocalIndex,
    face: u32,
) -> Result<Neighbour, Refusal>
    ensures { answered_of result ≡ neighbour_answer part.now table.now rank local.0 face }
{
    check_rank(table, rank)?;
    let i = local.0;
    let first = offsets::table::first_tree(table, rank as usize);
    let end = offsets::table::end_tree(table, rank as usize);
    if end - first <= i as u64 {
        return Err(Refusal::Index);
    }
    if 6 <= face {
        return Err(Refusal::Index);
    }
    if !part_check::sound::part_sound(part, table, rank) {
        return Err(Refusal::Part);
    }
    let shape = records::read::shape_of(part, part::layout::tree_at(local));
    let link = link::link_of(part, local, face);
    Ok(Neighbour { shape, link })
}
