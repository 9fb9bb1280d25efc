// The checks of opening an area.
ghost use Rattle.std.specs.Prelude.{◌≡◌};
ghost use Rattle.encoding.specs.Refusal.{first_failed};
ghost use Rattle.encoding.specs.Refusals.{refusal_of};
ghost use Rattle.area_open.specs.Calls.{open_checks};

use encoding::refusal::Refusal;
use pattern::tables::check_tables;

// Check two tables, a rank and a dimension (2, 3, 4, 5).
pub fn check_opening(old: &[u8], new: &[u8], rank: u32, dimension: u32) -> Result<(), Refusal>
    ensures { refusal_of result ≡ first_failed (open_checks old.now new.now rank dimension) }
{
    check_tables(old, new)?;
    if offsets::table::ranks(old) <= rank as usize {
        return Err(Refusal::Index);
    }
    if !mesh::layout::dimension_ok(dimension) {
        return Err(Refusal::Index);
    }
    Ok(())
}
