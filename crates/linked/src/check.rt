// All records that stand together: the links of trees and ghosts, each from one end, and as many links up as down.
ghost use Rattle.std.specs.Prelude.{◌≡◌, ◌+◌, ◌*◌, ◌≤◌, ◌<◌, length};
ghost use Rattle.encoding.specs.Below.{all_below};
ghost use Rattle.offsets.specs.Limits.{max_trees};
ghost use Rattle.linked.specs.Means.{ghost_after, ghost_numbered, records_linked, records_sound, Laid, Marked, Numbered};

use crate::layout::Records;
use crate::trees::trees_linked;
use ghost_links::check::{Ghosts, ghosts_linked};
use part::range::in_range;
use records::index::GlobalIndex;
use records::read::number_of;

fn ghost_after(bs: &[u8], x: Records, j: u32) -> bool
    requires { Laid bs.now x × (j < x.ghosts) }
    ensures { result ≡ ghost_after bs.now x j }
{
    if j == 0 {
        return true;
    }
    number_of(bs, x.tail + 40 * ((j - 1) as usize)) < number_of(bs, x.tail + 40 * (j as usize))
}

fn ghost_numbered(bs: &[u8], x: Records, j: u32) -> bool
    requires { Laid bs.now x × (j < x.ghosts) }
    ensures { result ≡ ghost_numbered bs.now x j }
{
    let number = number_of(bs, x.tail + 40 * (j as usize));
    let first = x.first;
    (number < x.trees)
        & !in_range(first.0, first.0 + x.count, GlobalIndex(number))
        & ghost_after(bs, x, j)
}

fn ghosts_numbered(bs: &[u8], x: Records) -> bool
    requires { Laid bs.now x }
    ensures { result ≡ all_below x.ghosts (ghost_numbered bs.now x) }
{
    let ghosts = x.ghosts;
    for j in 0..ghosts {
        if !ghost_numbered(bs, x, j) {
            return false;
        }
    }
    true
}

// By an index of the ghosts.
pub fn linked_by(bs: &[u8], x: Records, marks: &[u64], behind: &[u32]) -> bool
    requires { Marked bs.now x marks.now behind.now × Numbered bs.now x × (x.trees ≤ 64 * length marks.now) }
    ensures { result ≡ records_linked bs.now x }
{
    let Some(of_trees) = trees_linked(bs, x, marks, behind) else {
        return false;
    };
    let first = x.first;
    let ghosts = Ghosts {
        at: x.tail,
        ghosts: x.ghosts,
        first: first.0,
        count: x.count,
        dimension: x.dimension,
        trees: x.trees,
    };
    let Some(of_ghosts) = ghosts_linked(bs, ghosts, marks, behind) else {
        return false;
    };
    of_trees.ups + of_ghosts.ups == of_trees.downs + of_ghosts.downs
}

// With an index of so many words, which has its own stack frame.
fn linked_with<const WORDS: usize>(bs: &[u8], x: Records) -> bool
    requires { Laid bs.now x × Numbered bs.now x × (x.trees ≤ 64 * WORDS) × (WORDS ≤ 16384) }
    ensures { result ≡ records_linked bs.now x }
{
    let mut marks = [0u64; WORDS];
    let mut behind = [0u32; WORDS];
    positions::index::make(bs, x.tail, x.ghosts, x.trees, &mut marks, &mut behind);
    linked_by(bs, x, &marks, &behind)
}

// To clear the words for all trees that there can be takes longer than to check a few records: up to 65,536 trees have fewer words.
pub fn linked_of_all(bs: &[u8], x: Records) -> bool
    requires { Laid bs.now x × Numbered bs.now x }
    ensures { result ≡ records_linked bs.now x }
{
    if x.trees <= 65536 {
        return linked_with::<1024>(bs, x);
    }
    linked_with::<16384>(bs, x)
}

// First every ghost's number, by which links are then looked up.
pub fn records_sound(bs: &[u8], x: Records) -> bool
    requires { Laid bs.now x × (x.first.0 + x.count ≤ x.trees) × (x.trees ≤ max_trees) }
    ensures { result ≡ records_sound bs.now x }
{
    if !ghosts_numbered(bs, x) {
        return false;
    }
    linked_of_all(bs, x)
}
