// The range of a rank and its ghosts.
ghost use Rattle.std.specs.Prelude.{◌≡◌, ◌+◌, ◌≤◌, length};
ghost use Rattle.encoding.specs.Below.{any_below};
ghost use Rattle.encoding.specs.Pieces.{piece};
ghost use Rattle.encoding.specs.Refusal.{first_failed};
ghost use Rattle.encoding.specs.Refusals.{refusal_of};
ghost use Rattle.records.specs.Record.{core_size};
ghost use Rattle.part.specs.Means.{in_range, neighbour_in, Ascending, smaller};
ghost use Rattle.part.specs.Checks.{rank_checks};

use encoding::refusal::Refusal;
use records::index::GlobalIndex;

// Check a table and a rank (2, 3, 5).
pub fn check_rank(table: &[u8], rank: u32) -> Result<(), Refusal>
    ensures { refusal_of result ≡ first_failed (rank_checks table.now rank) }
{
    offsets::check_table(table)?;
    let ranks = offsets::table::ranks(table);
    if ranks <= rank as usize {
        return Err(Refusal::Index);
    }
    Ok(())
}

// Whether a tree is in a range, from its first tree to before its end.
pub fn in_range(first: u32, end: u32, tree: GlobalIndex) -> bool
    ensures { result ≡ in_range first end tree.0 }
{
    let k = tree.0;
    (first <= k) & (k < end)
}

// Whether a number or a local index is in a range, by one comparison: on meshes whose links lead far a branch for each bound is often foretold wrongly.
pub fn within(first: u32, end: u32, k: u32) -> bool
    requires { first ≤ end }
    ensures { result ≡ in_range first end k }
{
    k.wrapping_sub(first) < end - first
}

// Whether the record at byte `at` has a face neighbour in the range.
pub fn beside(bs: &[u8], at: usize, faces: u32, first: u32, end: u32) -> bool
    requires { (at + core_size ≤ length bs.now) × (faces ≤ 6) }
    ensures { result ≡ any_below faces (neighbour_in first end (piece bs.now at core_size)) }
{
    for face in 0..faces {
        if in_range(
            first,
            end,
            GlobalIndex(records::read::neighbour_of(bs, at, face)),
        ) {
            return true;
        }
    }
    false
}

// The position of the number among `count` core records that ascend from byte `at`, by halves.
pub fn find_ghost(bs: &[u8], at: usize, count: u32, number: GlobalIndex) -> u32
    requires { Ascending bs.now at count }
    ensures { (result ≡ smaller bs.now at count number.0) × (result ≤ count) }
{
    let k = number.0;
    let mut low = 0;
    let mut high = count;
    while low < high {
        let mid = low + (high - low) / 2;
        if encoding::bytes::read_u32(bs, at + 40 * (mid as usize)) < k {
            low = mid + 1;
        } else {
            high = mid;
        }
    }
    low
}
