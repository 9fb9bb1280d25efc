// The trees of each region, counted in one pass.
ghost use Rattle.std.specs.Prelude.{◌≡◌};
ghost use Rattle.encoding.specs.Pieces.{splice};
ghost use Rattle.regions.specs.Counts.{region_counts};
ghost use Rattle.regions.specs.Means.{Countable};

use records::index::LocalIndex;

// Writes the counts of a part whose trees are in form.
pub fn count_trees(part: &[u8], out: &mut [u32])
    requires { Countable part.now out.old }
    ensures { out.new ≡ splice out.old 0 (region_counts part.now) }
{
    out[..4096].fill(0);
    let n = part::layout::tree_count(part);
    for i in 0..n {
        let region = records::read::region_of(part, part::layout::tree_at(LocalIndex(i)));
        out[region as usize] += 1;
    }
}
