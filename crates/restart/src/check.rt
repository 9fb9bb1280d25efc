// The checks of the calls, but for the room.
ghost use Rattle.std.specs.Prelude.{◌≡◌, eqb};
ghost use Rattle.encoding.specs.Refusal.{first_failed};
ghost use Rattle.encoding.specs.Refusals.{refusal_of};
ghost use Rattle.offsets.specs.Table.{tree_count};
ghost use Rattle.part.specs.Means.{RankKnown};
ghost use Rattle.restart.specs.Restart.{left_out_empty, same_trees};
ghost use Rattle.restart.specs.Calls.{pad_checks, empty_checks, pair_checks, relabel_checks};
ghost use Rattle.restart.specs.Means.{ValidTable};

use encoding::refusal::Refusal;
use offsets::table::{end_tree, first_tree, rank_count_ok, ranks, ranks_ok, trees, valid};

// Whether a rank has no trees.
fn is_empty(table: &[u8], rank: usize) -> bool
    requires { RankKnown table.now rank }
    ensures { result ≡ eqb (tree_count table.now rank) 0 }
{
    first_tree(table, rank) == end_tree(table, rank)
}

// Whether the ranks from `n` on have no trees.
fn left_out_empty(table: &[u8], n: usize) -> bool
    requires { ValidTable table.now }
    ensures { result ≡ left_out_empty table.now n }
{
    let p = ranks(table);
    for rank in n..p {
        if !is_empty(table, rank) {
            return false;
        }
    }
    true
}

// Check a table and a number of ranks (2, 3, 64).
pub fn check_pad(table: &[u8], n: usize) -> Result<(), Refusal>
    ensures { refusal_of result ≡ first_failed (pad_checks table.now n) }
{
    if !(ranks_ok(table) & rank_count_ok(n)) {
        return Err(Refusal::Ranks);
    }
    if !valid(table) {
        return Err(Refusal::Table);
    }
    if !left_out_empty(table, n) {
        return Err(Refusal::Occupied);
    }
    Ok(())
}

// Check a table, a rank and a dimension (2, 3, 5, 64).
pub fn check_empty(table: &[u8], rank: u32, dimension: u32) -> Result<(), Refusal>
    ensures { refusal_of result ≡ first_failed (empty_checks table.now rank dimension) }
{
    part::range::check_rank(table, rank)?;
    if !mesh::layout::dimension_ok(dimension) {
        return Err(Refusal::Index);
    }
    if !is_empty(table, rank as usize) {
        return Err(Refusal::Occupied);
    }
    Ok(())
}

// Check two tables, each with its rank (2, 3, 5).
fn check_pair(table: &[u8], rank: u32, other: &[u8], q: u32) -> Result<(), Refusal>
    ensures { refusal_of result ≡ first_failed (pair_checks table.now rank other.now q) }
{
    if !(ranks_ok(table) & ranks_ok(other)) {
        return Err(Refusal::Ranks);
    }
    if !(valid(table) & valid(other)) {
        return Err(Refusal::Table);
    }
    if !(((rank as usize) < ranks(table)) & ((q as usize) < ranks(other))) {
        return Err(Refusal::Index);
    }
    Ok(())
}

// Whether two ranks of tables have the same K, first tree and count.
fn same_trees(table: &[u8], rank: usize, other: &[u8], q: usize) -> bool
    requires { (RankKnown table.now rank) × (RankKnown other.now q) }
    ensures { result ≡ same_trees table.now rank other.now q }
{
    (trees(table) == trees(other))
        & (first_tree(table, rank) == first_tree(other, q))
        & (end_tree(table, rank) == end_tree(other, q))
}

// Check a part under two tables, each with its rank (2, 3, 5, 8, 65).
pub fn check_relabel(
    part: &[u8],
    table: &[u8],
    rank: u32,
    other: &[u8],
    q: u32,
) -> Result<(), Refusal>
    ensures { refusal_of result ≡ first_failed (relabel_checks part.now table.now rank other.now q) }
{
    check_pair(table, rank, other, q)?;
    if !part_check::sound::part_sound(part, table, rank) {
        return Err(Refusal::Part);
    }
    if !same_trees(table, rank as usize, other, q as usize) {
        return Err(Refusal::Range);
    }
    Ok(())
}
