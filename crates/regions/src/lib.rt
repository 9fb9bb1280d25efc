// How many trees of a part each region has.
#![tactic(auto)]

ghost use Rattle.std.specs.Prelude.{◌≡◌};
ghost use Rattle.encoding.specs.Refusals.{refusal_of};
ghost use Rattle.regions.specs.Calls.{region_counts_of};

use encoding::refusal::Refusal;

mod count;

// Write how many local trees of the part have each region (2, 3, 5, 8, 22): 4,096 numbers by ascending region.
pub fn region_counts(part: &[u8], table: &[u8], rank: u32, out: &mut [u32]) -> Result<(), Refusal>
    ensures { (refusal_of result, out.new) ≡ region_counts_of part.now table.now rank out.old }
{
    part_check::check_part(part, table, rank)?;
    if out.len() < 4096 {
        return Err(Refusal::Buffer);
    }
    count::count_trees(part, &mut *out);
    Ok(())
}
