// The numbers of core records that ascend as a set of bits, and for each word of it how many members are in the words behind it.
ghost use Rattle.std.specs.Prelude.{◌≡◌, ◌*◌, ◌≤◌, ◌<◌, length};
ghost use Rattle.encoding.specs.Below.{count_below};
ghost use Rattle.bits.specs.Bits.{in_set};
ghost use Rattle.positions.specs.Means.{some_has, member_position, Markable, Added, Countable, Counted, Counts, Blank, Numbered, Indexed};

use bits::set::in_set;
use bits::word::ones;
use encoding::bytes::read_u32;
use part::layout::place_near;
use records::index::GlobalIndex;

// Adds the number of each of `count` core records from byte `at` on.
fn mark_numbers(bs: &[u8], at: usize, count: u32, marks: &mut [u64])
    requires { Markable bs.now at count marks.old }
    ensures { Added marks.old (some_has bs.now at count) marks.new }
{
    for i in 0..count {
        let k = read_u32(bs, at + 40 * (i as usize));
        bits::set::add_member(&mut *marks, k);
    }
}

// For each of the first `words` words, how many members are in the words behind it. Answers how many there are in these words.
pub fn count_behind(marks: &[u64], words: usize, behind: &mut [u32]) -> u32
    requires { Countable marks.now words behind.old }
    ensures { Counted marks.now words behind.old 0 behind.new × (result ≡ count_below (64 * words) (in_set marks.now)) }
{
    let mut total = 0;
    for i in (0..words).rev() {
        behind[i] = total;
        let w = marks[i];
        // most words of few members are empty
        if w != 0 {
            total += ones(w);
        }
    }
    total
}

// Makes the index of `count` core records from byte `at` on, whose numbers are below `below`.
pub fn make(bs: &[u8], at: usize, count: u32, below: u32, marks: &mut [u64], behind: &mut [u32])
    requires { Numbered bs.now at count below × (below ≤ 64 * length marks.old) × Blank marks.old behind.old }
    ensures { Indexed bs.now at count marks.new behind.new }
{
    mark_numbers(bs, at, count, &mut *marks);
    let words = below.div_ceil(64) as usize;
    count_behind(&*marks, words, &mut *behind);
}

// How many members are below k, of `count` in all: those that aren't from k on.
fn members_below(marks: &[u64], behind: &[u32], count: u32, k: u32) -> u32
    requires { Counts marks.now behind.now count × (k < 64 * length marks.now) }
    ensures { (result ≡ count_below k (in_set marks.now)) × (result ≤ count) }
{
    let i = (k / 64) as usize;
    count - (behind[i] + ones(marks[i] >> (k % 64)))
}

// The same for any number: where it is past the words, all members are below it.
pub fn count_below(marks: &[u64], behind: &[u32], count: u32, number: GlobalIndex) -> u32
    requires { Counts marks.now behind.now count }
    ensures { (result ≡ count_below number.0 (in_set marks.now)) × (result ≤ count) }
{
    let k = number.0;
    if marks.len() <= (k / 64) as usize {
        return count;
    }
    members_below(marks, behind, count, k)
}

// The position of the number among the members; `count`, which is how many there are, where it is none. No Option: most callers know that it is one, or take `count` for the place past the last.
pub fn find(marks: &[u64], behind: &[u32], count: u32, number: GlobalIndex) -> u32
    requires { Counts marks.now behind.now count }
    ensures { (result ≡ member_position marks.now count number.0) × (result ≤ count) }
{
    let k = number.0;
    if marks.len() <= (k / 64) as usize {
        return count;
    }
    if !in_set(marks, k) {
        return count;
    }
    members_below(marks, behind, count, k)
}

// A position, or j where no record has it.
fn position_or(position: u32, count: u32, j: u32) -> u32
    requires { j < count }
    ensures { result < count }
{
    if position < count {
        return position;
    }
    j
}

// The same among the records indexed, with a guess first: where the numbers between that of record j and this one are consecutive, as in a layer of a brick, its position follows from j. Some record is read in any case: where links lead far, a branch on whether the guess has one is often foretold wrongly.
pub fn find_near(
    bs: &[u8],
    at: usize,
    marks: &[u64],
    behind: &[u32],
    count: u32,
    j: u32,
    number: GlobalIndex,
) -> u32
    requires { Indexed bs.now at count marks.now behind.now × (j < count) }
    ensures { (result ≡ member_position marks.now count number.0) × (result ≤ count) }
{
    let k = number.0;
    let own = read_u32(bs, at + 40 * (j as usize));
    let near = position_or(place_near(j, own, k), count, j);
    if read_u32(bs, at + 40 * (near as usize)) == k {
        return near;
    }
    find(marks, behind, count, number)
}
