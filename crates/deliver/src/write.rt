// Writing an accepted delivery into its area, in place.
ghost use Rattle.std.specs.Prelude.{◌≡◌, ◌+◌, ◌*◌, ◌/◌, ◌%◌, ◌≤◌, length};
ghost use Rattle.encoding.specs.Numbers.{u64_at, put_u64};
ghost use Rattle.encoding.specs.Refusal.{first_failed};
ghost use Rattle.bits.specs.Bits.{with_bit};
ghost use Rattle.message.specs.Layout.{message_sender};
ghost use Rattle.area.specs.Deliver.{deliver_checks, delivered};
ghost use Rattle.area.specs.Means.{from_place};
ghost use Rattle.deliver.specs.Means.{Deliverable, Placed};

use crate::merge::merge;
use encoding::bytes::copy_words;
use records::index::{GlobalIndex, to_local};

// Where a delivery is written: the words of heard senders, the first slot of its trees, the ghost slots; and how many records.
#[derive(Clone, Copy)]
pub struct WritePlaces {
    pub words: usize,
    pub sender: usize,
    pub slots: usize,
    pub trees: usize,
    pub ghosts: usize,
    pub held: u32,
    pub came: u32,
}

// Where the slots of the trees due from the message's sender begin: its first tree is the first of them.
fn trees_place(area: &[u8], message: &[u8]) -> usize
    requires { Deliverable area.now message.now }
    ensures { result ≡ from_place area.now (message_sender message.now) }
{
    let ranks = area::read::ranks(area);
    let tables = area::read::tables_of(area);
    let sent = records::read::number_of(message, 32);
    let first = offsets::table::first_tree(tables.new, area::read::rank(area)) as u32;
    let tree = to_local(GlobalIndex(sent), GlobalIndex(first));
    area::layout::slots_place(ranks) + 64 * (tree.0 as usize)
}

// Sets the bit of sender s in the words from byte `words` on.
fn set_heard(area: &mut [u8], words: usize, s: usize)
    requires { words + 8 * (s / 64) + 8 ≤ length area.old }
    ensures { area.new ≡ put_u64 area.old (words + 8 * (s / 64)) (with_bit (u64_at area.old (words + 8 * (s / 64))) (s % 64)) }
{
    let at = words + 8 * (s / 64);
    let word = encoding::bytes::read_u64(&*area, at);
    encoding::bytes::write_u64(&mut *area, at, bits::word::with_bit(word, (s % 64) as u32));
}

fn places(area: &[u8], message: &[u8]) -> WritePlaces
    requires { Deliverable area.now message.now }
    ensures { Placed area.now message.now result.words result.sender result.slots result.trees result.ghosts result.held result.came }
{
    let ranks = area::read::ranks(area);
    let count = area::read::count(area);
    WritePlaces {
        words: area::layout::words_place(ranks),
        sender: message::header::sender(message) as usize,
        slots: trees_place(area, message),
        trees: message::header::tree_count(message) as usize,
        ghosts: area::layout::ghost_slots_place(ranks, count),
        held: area::read::ghosts(area),
        came: message::header::ghost_count(message),
    }
}

// The bit set, the trees in their slots, the ghosts merged and their count.
pub fn write_delivery(area: &mut [u8], message: &[u8])
    requires { first_failed (deliver_checks area.old message.now) ≡ 0 }
    ensures { area.new ≡ delivered area.old message.now }
{
    let at = places(&*area, message);
    let end = 32 + 64 * at.trees;
    let slots_end = at.slots + 64 * at.trees;
    set_heard(&mut *area, at.words, at.sender);
    copy_words(
        &mut area[at.slots..slots_end],
        &message[32..end],
        8 * at.trees,
    );
    merge(
        &mut *area,
        at.ghosts,
        at.held as usize,
        message,
        end,
        at.came as usize,
    );
    encoding::bytes::write_u32(&mut *area, 24, at.held + at.came);
}
