// The ghosts that go with a message, marked in a set of bits.
ghost use Rattle.std.specs.Prelude.{◌≡◌, ◌+◌, ◌*◌, ◌≤◌, ◌<◌, length};
ghost use Rattle.positions.specs.Means.{Added};
ghost use Rattle.part.specs.Part.{part_count, part_ghost_count};
ghost use Rattle.message_ghosts.specs.Means.{Room, Near, Empty, mark_words};
ghost use Rattle.message_ghosts.specs.MeansSent.{Sends, KnownPart, RangesOf, LocalsOf, MarksOf, near_going, trees_going};

use crate::Sending;
use crate::near::add_near;
use crate::read::number_at;
use crate::rule::{Locals, Ranges, goes, locals_of, ranges_of};
use records::index::{GlobalIndex, LocalIndex, to_local};

// Marks those of a set of local indices that go, each asked once and in the order of their records.
fn mark_near(
    sending: Sending<'_>,
    count: u32,
    of: Ranges,
    here: Locals,
    near: &[u64],
    marks: &mut [u64],
)
    requires { KnownPart sending count × Near sending.part.now count near.now × Room sending.old.now marks.old × RangesOf sending of × LocalsOf sending count here }
    ensures { Added marks.old (near_going sending.entry count near.now (64 * length near.now)) marks.new }
{
    let end = 64 * (near.len() as u32);
    let mut j = bits::set::next_member(near, 0);
    // from member to member of the set
    while j < end {
        let i = j;
        let k = number_at(sending.part, count, LocalIndex(i)).0;
        j = bits::set::next_member(near, i + 1);
        if goes(sending, count, of, here, LocalIndex(i), GlobalIndex(k)) {
            bits::set::add_member(&mut *marks, k);
        }
    }
}

// Marks what goes with the trees sent, by an empty set for the records of the part.
fn mark_by(sending: Sending<'_>, near: &mut [u64], marks: &mut [u64])
    requires { Sends sending × (0 < sending.count) × Empty sending.part.now near.old × Room sending.old.now marks.old }
    ensures { Added marks.old (trees_going sending.entry) marks.new }
{
    let own = part::layout::first_tree(sending.part);
    let count = part::layout::tree_count(sending.part);
    let start = to_local(GlobalIndex(sending.first), own).0;
    add_near(sending, count, start, start + sending.count, &mut *near);
    let of = ranges_of(sending);
    let here = locals_of(sending, own, count, of);
    mark_near(sending, count, of, here, &*near, &mut *marks);
}

// The same, with words for so many records, no more than `WORDS`.
fn mark_within<const WORDS: usize>(sending: Sending<'_>, words: usize, marks: &mut [u64])
    requires { Sends sending × (0 < sending.count) × (part_count sending.part.now + part_ghost_count sending.part.now ≤ 64 * words) × (words ≤ WORDS) × (WORDS ≤ mark_words) × Room sending.old.now marks.old }
    ensures { Added marks.old (trees_going sending.entry) marks.new }
{
    let mut near = [0u64; WORDS];
    mark_by(sending, &mut near[..words], &mut *marks);
}

// Marks the ghosts that go with a message. Only the trees sent and their neighbours are read, not the whole part. To clear words for all records takes longer than to mark what goes with few trees: up to 16,384 records have fewer, and so have up to 131,072.
pub fn mark_ghosts(sending: Sending<'_>, marks: &mut [u64])
    requires { Sends sending × Room sending.old.now marks.old }
    ensures { MarksOf sending.entry marks.new }
{
    marks.fill(0);
    let n = sending.count;
    if n == 0 {
        return;
    }
    let records = part::layout::tree_count(sending.part) + part::layout::ghost_count(sending.part);
    let words = records.div_ceil(64) as usize;
    if words <= 256 {
        mark_within::<256>(sending, words, &mut *marks);
        return;
    }
    if words <= 2048 {
        mark_within::<2048>(sending, words, &mut *marks);
        return;
    }
    mark_within::<16384>(sending, words, &mut *marks);
}
