// Delivering many messages into an area under one check of it.
#![tactic(auto)]

ghost use Rattle.std.specs.Prelude.{◌≡◌};
ghost use Rattle.encoding.specs.Refusals.{count_of};
ghost use Rattle.deliver_all.specs.Calls.{deliver_all_of};

use encoding::refusal::Refusal;

mod messages;

// Deliver messages that stand end to end, one after the other; `answers` gets the number of what `deliver` would have answered to each (10, 22).
pub fn deliver_all(area: &mut [u8], messages: &[u8], answers: &mut [u32]) -> Result<u32, Refusal>
    ensures { (count_of result, (area.new, answers.new)) ≡ deliver_all_of area.old messages.now answers.old }
{
    if !area_check::sound::area_sound(&*area) {
        return Err(Refusal::Area);
    }
    let count = messages::message_count(messages);
    if (answers.len() < count) | (count > u32::MAX as usize) {
        return Err(Refusal::Buffer);
    }
    messages::deliver_each(&mut *area, messages, &mut *answers);
    Ok(count as u32)
}
