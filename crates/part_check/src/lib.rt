// Checking a part.
#![tactic(auto)]

ghost use Rattle.std.specs.Prelude.{◌≡◌};
ghost use Rattle.encoding.specs.Refusals.{refusal_of};
ghost use Rattle.part_check.specs.Calls.{part_refusal};

use encoding::refusal::Refusal;
use part::range::check_rank;

pub mod plain;
pub mod sound;

// Check a part for a table and a rank (2, 3, 5, 8).
pub fn check_part(part: &[u8], table: &[u8], rank: u32) -> Result<(), Refusal>
    ensures { refusal_of result ≡ part_refusal part.now table.now rank }
{
    check_rank(table, rank)?;
    if !sound::part_sound(part, table, rank) {
        return Err(Refusal::Part);
    }
    Ok(())
}
