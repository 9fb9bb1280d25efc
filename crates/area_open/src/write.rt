// Writing a fresh area.
ghost use Rattle.std.specs.Prelude.{◌≡◌};
ghost use Rattle.encoding.specs.Pieces.{splice};
ghost use Rattle.area.specs.Open.{fresh_area};
ghost use Rattle.area_open.specs.Means.{AreaRoom};

use area::header::tree_count;
use area::layout::{area_size, new_place, words_place};
use encoding::bytes::copy_words;

// Writes the fresh area: the header, both tables, and zeros to its end.
pub fn write_fresh(old: &[u8], new: &[u8], rank: u32, dimension: u32, epoch: u32, out: &mut [u8])
    requires { AreaRoom old.now new.now rank dimension out.old }
    ensures { out.new ≡ splice out.old 0 (fresh_area old.now new.now rank dimension epoch) }
{
    let ranks = offsets::table::ranks(old);
    let trees = offsets::table::trees(old) as u32;
    let count = tree_count(new, rank as usize);
    let middle = new_place(ranks);
    let from = words_place(ranks);
    let to = area_size(dimension, ranks, count);
    encoding::header::write_eight(
        &mut *out,
        [epoch, dimension, trees, ranks as u32, rank, count, 0, 0],
    );
    copy_words(&mut out[32..middle], old, ranks + 1);
    copy_words(&mut out[middle..from], new, ranks + 1);
    out[from..to].fill(0);
}
