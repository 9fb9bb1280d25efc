// The checks of a build for all receivers.
ghost use Rattle.std.specs.Prelude.{◌≡◌};
ghost use Rattle.encoding.specs.Refusal.{first_failed};
ghost use Rattle.encoding.specs.Refusals.{refusal_of};
ghost use Rattle.build_all.specs.Calls.{build_all_checks};

use encoding::refusal::Refusal;
use pattern::tables::check_tables;

// The checks of a part, two tables and a rank (2, 3, 4, 5, 8).
pub fn check_build(part: &[u8], old: &[u8], new: &[u8], p: u32) -> Result<(), Refusal>
    ensures { refusal_of result ≡ first_failed (build_all_checks part.now old.now new.now p) }
{
    check_tables(old, new)?;
    if offsets::table::ranks(old) <= p as usize {
        return Err(Refusal::Index);
    }
    if !part_check::sound::part_sound(part, old, p) {
        return Err(Refusal::Part);
    }
    Ok(())
}
