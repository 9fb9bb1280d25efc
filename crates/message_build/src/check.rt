// The checks of a build.
ghost use Rattle.std.specs.Prelude.{◌≡◌};
ghost use Rattle.encoding.specs.Refusal.{first_failed};
ghost use Rattle.encoding.specs.Refusals.{refusal_of};
ghost use Rattle.message.specs.Calls.{build_checks};

use encoding::refusal::Refusal;
use pattern::tables::check_tables;

// The checks of a part, two tables and two ranks (2, 3, 4, 5, 8, 9).
pub fn check_build(part: &[u8], old: &[u8], new: &[u8], p: u32, q: u32) -> Result<(), Refusal>
    ensures { refusal_of result ≡ first_failed (build_checks part.now old.now new.now p q) }
{
    check_tables(old, new)?;
    let ranks = offsets::table::ranks(old);
    if ranks <= p as usize {
        return Err(Refusal::Index);
    }
    if ranks <= q as usize {
        return Err(Refusal::Index);
    }
    if !part_check::sound::part_sound(part, old, p) {
        return Err(Refusal::Part);
    }
    if !pattern::range::sends_some(old, new, p as usize, q as usize) {
        return Err(Refusal::Nothing);
    }
    Ok(())
}
