// The ghosts that go with a message, counted: they give its length.
ghost use Rattle.std.specs.Prelude.{◌≡◌, ◌*◌, ◌≤◌, length};
ghost use Rattle.encoding.specs.Below.{count_below};
ghost use Rattle.bits.specs.Bits.{in_set};
ghost use Rattle.offsets.specs.Limits.{max_trees};
ghost use Rattle.part.specs.Layout.{part_header};
ghost use Rattle.part.specs.Part.{part_k};
ghost use Rattle.message_ghosts.specs.Means.{mark_words, Room};
ghost use Rattle.message_ghosts.specs.MeansSent.{Sends};
ghost use Rattle.message_build.specs.MeansSent.{GoingWith};

use message_ghosts::Sending;
use message_ghosts::marks::mark_ghosts;

// How many members a set has, by the ones in its words. Most words of a large mesh have none, and to see that is faster than to count them.
pub fn member_count(marks: &[u64]) -> u32
    requires { length marks.now ≤ 16384 }
    ensures { result ≡ count_below (64 * length marks.now) (in_set marks.now) }
{
    let mut count = 0;
    for word in marks {
        if *word != 0 {
            count += bits::word::ones(*word);
        }
    }
    count
}

// How many words hold a mark for each of K trees.
pub fn mark_words(part: &[u8]) -> usize
    requires { (part_header ≤ length part.now) × (part_k part.now ≤ max_trees) }
    ensures { (part_k part.now ≤ 64 * result) × (result ≤ mark_words) }
{
    part::layout::trees(part).div_ceil(64) as usize
}

// Marks the ghosts that go with a message: how many they are.
pub fn going(sending: Sending<'_>, marks: &mut [u64]) -> u32
    requires { Sends sending × Room sending.old.now marks.old }
    ensures { GoingWith sending.entry result marks.new }
{
    mark_ghosts(sending, &mut *marks);
    member_count(&*marks)
}
