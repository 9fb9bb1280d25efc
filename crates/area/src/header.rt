// Whether the header of an area is sound: its tables, and what they say.
ghost use Rattle.std.specs.Prelude.{◌≡◌, ◌≤◌};
ghost use Rattle.offsets.specs.Limits.{max_trees};
ghost use Rattle.offsets.specs.Table.{tree_count};
ghost use Rattle.area.specs.Area.{area_header_sound};
ghost use Rattle.area.specs.Means.{RankIn, SizedArea, tables_fit};

use crate::layout::area_size;
use crate::read::{count, dimension, rank, ranks, tables_of, trees};

// How many trees a rank has.
pub fn tree_count(t: &[u8], rank: usize) -> u32
    requires { RankIn t.now rank }
    ensures { (result ≡ tree_count t.now rank) × (result ≤ max_trees) }
{
    let first = offsets::table::first_tree(t, rank);
    let end = offsets::table::end_tree(t, rank);
    (end - first) as u32
}

// Whether the tables are valid and agree with the header's K and rank.
fn tables_fit(area: &[u8], old: &[u8], new: &[u8]) -> bool
    requires { SizedArea area.now old.now new.now }
    ensures { result ≡ tables_fit area.now }
{
    let k = trees(area) as u64;
    offsets::table::valid(old)
        & offsets::table::valid(new)
        & (offsets::table::trees(old) == k)
        & (offsets::table::trees(new) == k)
        & (rank(area) < ranks(area))
}

pub fn header_sound(area: &[u8]) -> bool
    ensures { result ≡ area_header_sound area.now }
{
    if area.len() < 32 {
        return false;
    }
    if !mesh::layout::dimension_ok(dimension(area)) {
        return false;
    }
    let ranks = ranks(area);
    if !offsets::table::rank_count_ok(ranks) {
        return false;
    }
    if area.len() < area_size(dimension(area), ranks, count(area)) {
        return false;
    }
    let tables = tables_of(area);
    if !tables_fit(area, tables.old, tables.new) {
        return false;
    }
    (count(area) == tree_count(tables.new, rank(area))) & (encoding::bytes::read_u32(area, 28) == 0)
}
