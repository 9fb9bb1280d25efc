// A delivery into an area that is known to be sound.
ghost use Rattle.std.specs.Prelude.{◌≡◌, true};
ghost use Rattle.encoding.specs.Refusals.{refusal_of};
ghost use Rattle.area.specs.Area.{area_sound};
ghost use Rattle.area.specs.Deliver.{deliver_of};

use deliver_check::check::check_delivery;
use encoding::refusal::Refusal;

// Delivers a message into a sound area (11 to 18). It reads no more of the area than the message concerns.
pub fn deliver_sound(area: &mut [u8], message: &[u8]) -> Result<(), Refusal>
    requires { area_sound area.old ≡ true }
    ensures { (refusal_of result, area.new) ≡ deliver_of area.old message.now }
{
    check_delivery(&*area, message)?;
    crate::write::write_delivery(&mut *area, message);
    Ok(())
}
