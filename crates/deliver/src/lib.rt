// Delivering a message into an area.
#![tactic(auto)]

ghost use Rattle.std.specs.Prelude.{◌≡◌};
ghost use Rattle.encoding.specs.Refusals.{refusal_of};
ghost use Rattle.area.specs.Deliver.{deliver_of};

use encoding::refusal::Refusal;

pub mod merge;
pub mod sound;
pub mod write;

// Deliver a message (10 to 18).
pub fn deliver(area: &mut [u8], message: &[u8]) -> Result<(), Refusal>
    ensures { (refusal_of result, area.new) ≡ deliver_of area.old message.now }
{
    if !area_check::sound::area_sound(&*area) {
        return Err(Refusal::Area);
    }
    sound::deliver_sound(&mut *area, message)
}
