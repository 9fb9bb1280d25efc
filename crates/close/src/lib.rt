// Closing an area: its joined part is written into a lent buffer.
#![tactic(auto)]

ghost use Rattle.std.specs.Prelude.{◌≡◌, ◌*◌, ◌≤◌};
ghost use Rattle.encoding.specs.Refusals.{length_of};
ghost use Rattle.offsets.specs.Limits.{max_trees};
ghost use Rattle.area.specs.Area.{area_k, area_new};
ghost use Rattle.area.specs.Close.{close_length_of, close_of};
ghost use Rattle.close_check.specs.Means.{Complete};

use close_check::check::{check_close, check_early};
use encoding::refusal::Refusal;

pub mod join;

// How long the part is that a close writes (10, 20, 21).
pub fn part_of_area_length(area: &[u8]) -> Result<u64, Refusal>
    ensures { length_of result ≡ close_length_of area.now }
{
    check_close(area)?;
    let count = area::read::count(area);
    Ok(part::layout::ghost_at(count, area::read::ghosts(area)) as u64)
}

// The rest of a close, with words for the index of the ghosts among K trees.
fn close_with<const WORDS: usize>(area: &[u8], out: &mut [u8]) -> Result<u64, Refusal>
    requires { Complete area.now (area_new area.now) × (area_k area.now ≤ 64 * WORDS) × (64 * WORDS ≤ max_trees) }
    ensures { (length_of result, out.new) ≡ close_of area.now out.old }
{
    let mut marks = [0u64; WORDS];
    let mut behind = [0u32; WORDS];
    join::close_by(area, &mut *out, &mut marks, &mut behind)
}

// Close an area: write the part that its slots make (10, 20, 21, 22). The area stays as it is. Up to 65,536 trees have fewer words.
pub fn close_area(area: &[u8], out: &mut [u8]) -> Result<u64, Refusal>
    ensures { (length_of result, out.new) ≡ close_of area.now out.old }
{
    check_early(area)?;
    if area::read::trees(area) <= 65536 {
        return close_with::<1024>(area, &mut *out);
    }
    close_with::<16384>(area, &mut *out)
}
