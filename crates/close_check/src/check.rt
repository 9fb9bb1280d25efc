// The checks of a close in their order.
ghost use Rattle.std.specs.Prelude.{◌≡◌};
ghost use Rattle.encoding.specs.Refusal.{first_failed};
ghost use Rattle.encoding.specs.Refusals.{refusal_of};
ghost use Rattle.area.specs.Close.{close_checks};
ghost use Rattle.close_check.specs.Means.{early_refusal};

use encoding::refusal::Refusal;

// The checks of a close that come before its records are joined (10, 20).
pub fn check_early(area: &[u8]) -> Result<(), Refusal>
    ensures { refusal_of result ≡ early_refusal area.now }
{
    if !area_check::sound::area_sound(area) {
        return Err(Refusal::Area);
    }
    if !crate::heard::all_heard(area, area::read::tables_of(area)) {
        return Err(Refusal::Missing);
    }
    Ok(())
}

// The checks of a close but for the buffer (10, 20, 21).
pub fn check_close(area: &[u8]) -> Result<(), Refusal>
    ensures { refusal_of result ≡ first_failed (close_checks area.now) }
{
    check_early(area)?;
    if !crate::join::join_sound(area) {
        return Err(Refusal::Join);
    }
    Ok(())
}
