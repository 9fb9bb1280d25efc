// Messages end to end: where each ends, how many there are, and delivering each.
ghost use Rattle.std.specs.Prelude.{◌≡◌, ◌≤◌, length};
ghost use Rattle.deliver_all.specs.Messages.{front_length, messages_in};
ghost use Rattle.deliver_all.specs.Means.{Receivable, Received};

use deliver::sound::deliver_sound;
use encoding::refusal::number_of;

// How long the message in front is: as its header says, or all that is there.
fn front_length(rest: &[u8]) -> usize
    ensures { (result ≡ front_length rest.now) × (result ≤ length rest.now) }
{
    let n = rest.len();
    if n < 32 {
        return n;
    }
    let trees = message::header::tree_count(rest);
    let ghosts = message::header::ghost_count(rest);
    let size = message::layout::ghost_at(trees, ghosts);
    if n < size {
        return n;
    }
    size
}

// How many messages there are.
pub fn message_count(messages: &[u8]) -> usize
    ensures { result ≡ length (messages_in messages.now) }
{
    // a `while`: each step is as long as its message
    let mut at = 0;
    let mut count = 0;
    while at < messages.len() {
        at += front_length(&messages[at..]);
        count += 1;
    }
    count
}

// Delivers each in turn. A sound area stays sound under any delivery, so it isn't checked again.
pub fn deliver_each(area: &mut [u8], messages: &[u8], answers: &mut [u32])
    requires { Receivable area.old messages.now answers.old }
    ensures { Received area.old messages.now answers.old area.new answers.new }
{
    // a `while`, as in the count
    let mut at = 0;
    let mut i = 0;
    while at < messages.len() {
        let end = at + front_length(&messages[at..]);
        answers[i] = number_of(deliver_sound(&mut *area, &messages[at..end]));
        at = end;
        i += 1;
    }
}
