// The ranks with which a rank can exchange trees: those whose range in one table may meet its range in the other.
ghost use Rattle.std.specs.Prelude.{◌≤◌};
ghost use Rattle.offsets.specs.Limits.{max_ranks};
ghost use Rattle.offsets.specs.Table.{first_tree, end_tree};
ghost use Rattle.pattern.specs.Means.{ValidTable, RankOf, FirstAbove, Meeting, WindowOf};

use offsets::table::{end_tree, entry, first_tree, magnitude, ranks};

// From the first of them up to, but without, the end.
#[derive(Clone, Copy)]
pub struct Window {
    pub first: usize,
    pub end: usize,
}

// The first rank but 0 with |O[p]| above k, P if there is none. |O[p]| never falls, so it is found by halves.
fn first_above(t: &[u8], k: u64) -> usize
    requires { ValidTable t.now }
    ensures { FirstAbove t.now k result × (result ≤ max_ranks) }
{
    let mut low = 1;
    let mut high = ranks(t);
    while low < high {
        let middle = (low + high) / 2;
        if k < magnitude(entry(t, middle)) {
            high = middle;
        } else {
            low = middle + 1;
        }
    }
    low
}

// The ranks whose range in the table `to` may meet that of the rank in the table `from`.
fn meeting(from: &[u8], to: &[u8], rank: usize) -> Window
    requires { RankOf from.now to.now rank }
    ensures { Meeting to.now (first_tree from.now rank) (end_tree from.now rank) result.first result.end × (result.end ≤ max_ranks) }
{
    Window {
        first: first_above(to, first_tree(from, rank)) - 1,
        end: first_above(to, end_tree(from, rank)),
    }
}

// The ranks to which the rank may send; where it isn't sending, those from which it may get trees.
pub fn window_of(old: &[u8], new: &[u8], rank: usize, sending: bool) -> Window
    requires { RankOf old.now new.now rank }
    ensures { WindowOf old.now new.now rank sending result.first result.end × (result.end ≤ max_ranks) }
{
    if sending {
        return meeting(old, new, rank);
    }
    meeting(new, old, rank)
}
