// Whether a part is sound: its header, and its records as `linked` looks at them (proofs/OneLoop.antt). Its tree records hold local indices, its ghosts global numbers.
ghost use Rattle.std.specs.Prelude.{◌≡◌, cond, ◌&&◌, ◌+◌, ◌≤◌, ◌<◌, ltb, eqb, length, IfSome, unwrap_or};
ghost use Rattle.encoding.specs.Below.{least_below};
ghost use Rattle.offsets.specs.Limits.{max_trees};
ghost use Rattle.records.specs.Record.{core_size};
ghost use Rattle.part.specs.Layout.{tree_place, ghost_place, part_size};
ghost use Rattle.part.specs.Part.{part_count, part_ghost_count, stored_tree, part_header_sound, part_sound};
ghost use Rattle.part.specs.Means.{Ascending, ghost_core, ghost_has, RankKnown};
ghost use Rattle.mesh.specs.Means.{link_by_dimension};
ghost use Rattle.part_check.specs.Means.{tree_numbered, ghost_behind, ghost_numbered, records_sound, PartLaid};

use linked::layout::Records;
use part::layout::{dimension, first_tree, ghost_at, ghost_count, tree_at, tree_count, trees};
use part::range::{find_ghost, in_range};
use records::index::{GlobalIndex, LocalIndex, to_local};

// Whether the header is as table and rank say, and the length as the header says.
pub fn header_sound(part: &[u8], table: &[u8], rank: u32) -> bool
    requires { RankKnown table.now rank }
    ensures { result ≡ (part_header_sound part.now table.now rank && eqb (length part.now) (part_size (part_count part.now) (part_ghost_count part.now))) }
{
    if part.len() < 32 {
        return false;
    }
    let ranks = offsets::table::ranks(table);
    let first = offsets::table::first_tree(table, rank as usize);
    let end = offsets::table::end_tree(table, rank as usize);
    let count = tree_count(part);
    mesh::layout::dimension_ok(dimension(part))
        & (trees(part) as u64 == offsets::table::entry(table, ranks))
        & (encoding::bytes::read_u32(part, 8) as usize == ranks)
        & (encoding::bytes::read_u32(part, 12) == rank)
        & (first_tree(part).0 as u64 == first)
        & (count as u64 == end - first)
        & (encoding::bytes::read_u32(part, 28) == 0)
        & (part.len() == ghost_at(count, ghost_count(part)))
}

// ---- numbers

// Whether the local index of the tree's number is its own.
pub fn tree_numbered(part: &[u8], first: GlobalIndex, tree: LocalIndex) -> bool
    requires { tree_place tree.0 + core_size ≤ length part.now }
    ensures { result ≡ tree_numbered first.0 (stored_tree part.now) tree.0 }
{
    let number = records::read::number_of(part, tree_at(tree));
    if number < first.0 {
        return false;
    }
    let local = to_local(GlobalIndex(number), first);
    local.0 == tree.0
}

fn ghost_behind(part: &[u8], count: u32, j: u32) -> bool
    requires { ghost_place count j + core_size ≤ length part.now }
    ensures { result ≡ ghost_behind (ghost_core part.now count) j }
{
    if j == 0 {
        return true;
    }
    records::read::number_of(part, ghost_at(count, j - 1))
        < records::read::number_of(part, ghost_at(count, j))
}

pub fn ghost_numbered(part: &[u8], first: u32, count: u32, trees: u32, j: u32) -> bool
    requires { (ghost_place count j + core_size ≤ length part.now) × (first + count ≤ max_trees) }
    ensures { result ≡ ghost_numbered first count (ghost_core part.now count) trees j }
{
    let number = records::read::number_of(part, ghost_at(count, j));
    (number < trees)
        & !in_range(first, first + count, GlobalIndex(number))
        & ghost_behind(part, count, j)
}

// What the record with local index j has for tree i: a tree its local index, a ghost its number.
pub fn back_of(first: u32, count: u32, i: u32, j: u32) -> u32
    requires { first + i < max_trees }
    ensures { result ≡ cond (ltb j count) i (first + i) }
{
    if j < count {
        return i;
    }
    first + i
}

// ---- ghosts

// The position of the ghost with the number, by halves: for a part whose ghosts are not indexed.
pub fn ghost_with(part: &[u8], count: u32, ghosts: u32, number: GlobalIndex) -> Option<u32>
    requires { Ascending part.now (ghost_place count 0) ghosts }
    ensures { (unwrap_or result ghosts ≡ least_below ghosts (ghost_has (ghost_core part.now count) number.0)) × IfSome result (λ position. position < ghosts) }
{
    let wanted = number.0;
    let position = find_ghost(part, ghost_at(count, 0), ghosts, number);
    if ghosts <= position {
        return None;
    }
    if records::read::number_of(part, ghost_at(count, position)) != wanted {
        return None;
    }
    Some(position)
}

// ---- the whole

fn records_sound(
    part: &[u8],
    first: GlobalIndex,
    count: u32,
    ghosts: u32,
    dimension: u32,
    trees: u32,
) -> bool
    requires { PartLaid part.now first.0 count ghosts trees }
    ensures { result ≡ records_sound (link_by_dimension dimension) first.0 count ghosts (stored_tree part.now) (ghost_core part.now count) dimension trees }
{
    linked::check::records_sound(
        part,
        Records {
            head: 32,
            tail: ghost_at(count, 0),
            first,
            count,
            ghosts,
            dimension,
            trees,
            local: true,
        },
    )
}

// Whether the part is sound for a valid table and a rank of it.
pub fn part_sound(part: &[u8], table: &[u8], rank: u32) -> bool
    requires { RankKnown table.now rank }
    ensures { result ≡ part_sound part.now table.now rank }
{
    if !header_sound(part, table, rank) {
        return false;
    }
    records_sound(
        part,
        first_tree(part),
        tree_count(part),
        ghost_count(part),
        dimension(part),
        trees(part),
    )
}
