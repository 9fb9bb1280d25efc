// The checks of a delivery: whether an area takes a message.
ghost use Rattle.std.specs.Prelude.{◌≡◌, true, ◌+◌, ◌≤◌, ◌<◌, eqb, length};
ghost use Rattle.encoding.specs.Below.{all_below};
ghost use Rattle.encoding.specs.Refusal.{first_failed};
ghost use Rattle.encoding.specs.Refusals.{refusal_of};
ghost use Rattle.records.specs.Record.{number_of};
ghost use Rattle.message.specs.Layout.{message_header, message_sender, message_receiver, message_tree_place, message_tree, in_layout};
ghost use Rattle.area.specs.Area.{area_p, area_rank, area_sound};
ghost use Rattle.area.specs.Means.{Tabled};
ghost use Rattle.area.specs.Deliver.{same_run, sender_due, trees_due, deliver_checks};
ghost use Rattle.deliver_ghosts.specs.Means.{Checkable};
ghost use Rattle.deliver_check.specs.Means.{Headed, due_checks};

use area::read::{Tables, tables_of};
use encoding::refusal::Refusal;

// Whether the message's epoch, dimension, K and P are the area's (12).
fn same_run(area: &[u8], message: &[u8]) -> bool
    requires { Headed area.now message.now }
    ensures { result ≡ same_run area.now message.now }
{
    (message::header::epoch(message) == area::read::epoch(area))
        & (message::header::dimension(message) == area::read::dimension(area))
        & (message::header::trees_below(message) == area::read::trees(area))
        & (message::header::ranks(message) as usize == area::read::ranks(area))
}

// Whether the message is for the area's rank (13).
fn receiver_is(area: &[u8], message: &[u8]) -> bool
    requires { Headed area.now message.now }
    ensures { result ≡ eqb (message_receiver message.now) (area_rank area.now) }
{
    message::header::receiver(message) as usize == area::read::rank(area)
}

// Whether the sender is in the receive set (14).
fn sender_due(area: &[u8], tables: Tables, message: &[u8]) -> bool
    requires { Tabled area.now tables.old.now tables.new.now × (message_header ≤ length message.now) }
    ensures { result ≡ sender_due area.now message.now }
{
    let sender = message::header::sender(message) as usize;
    if area::read::ranks(area) <= sender {
        return false;
    }
    pattern::range::sends_some(tables.old, tables.new, sender, area::read::rank(area))
}

// Whether the message's trees have the numbers from `first` on.
fn trees_from(message: &[u8], first: u32, count: u32) -> bool
    requires { message_tree_place count ≤ length message.now }
    ensures { result ≡ all_below count (λ i. eqb (number_of (message_tree message.now i)) (first + i)) }
{
    for i in 0..count {
        let number = records::read::number_of(message, message::layout::tree_at(i));
        if number as u64 != (first as u64) + (i as u64) {
            return false;
        }
    }
    true
}

// Whether the trees are exactly the range due (16).
fn trees_due(area: &[u8], tables: Tables, message: &[u8]) -> bool
    requires { Tabled area.now tables.old.now tables.new.now × (in_layout message.now ≡ true) × (message_sender message.now < area_p area.now) }
    ensures { result ≡ trees_due area.now message.now }
{
    let sender = message::header::sender(message) as usize;
    let sent = pattern::range::sent(tables.old, tables.new, sender, area::read::rank(area));
    let first = sent.first;
    let count = sent.count;
    if message::header::tree_count(message) != count {
        return false;
    }
    trees_from(message, first, count)
}

// The checks from the sender's on (14 to 18).
fn check_due(area: &[u8], tables: Tables, message: &[u8]) -> Result<(), Refusal>
    requires { Tabled area.now tables.old.now tables.new.now × Checkable area.now message.now }
    ensures { refusal_of result ≡ first_failed (due_checks area.now message.now) }
{
    if !sender_due(area, tables, message) {
        return Err(Refusal::Sender);
    }
    if area::read::heard(area, message::header::sender(message) as usize) {
        return Err(Refusal::Heard);
    }
    if !trees_due(area, tables, message) {
        return Err(Refusal::Trees);
    }
    if !deliver_ghosts::ghosts::ghosts_due(area, tables.new, message) {
        return Err(Refusal::Ghosts);
    }
    if !deliver_ghosts::ghosts::ghosts_new(area, message) {
        return Err(Refusal::Held);
    }
    Ok(())
}

// Check whether a sound area takes a message (11 to 18).
pub fn check_delivery(area: &[u8], message: &[u8]) -> Result<(), Refusal>
    requires { area_sound area.now ≡ true }
    ensures { refusal_of result ≡ first_failed (deliver_checks area.now message.now) }
{
    if !message::layout::in_layout(message) {
        return Err(Refusal::Layout);
    }
    if !same_run(area, message) {
        return Err(Refusal::Run);
    }
    if !receiver_is(area, message) {
        return Err(Refusal::Receiver);
    }
    check_due(area, tables_of(area), message)
}
