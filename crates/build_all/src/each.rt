// The messages from a rank to the others, in the order of the ranks.
ghost use Rattle.std.specs.Prelude.{◌≡◌, ℕ, ◌*◌, ◌≤◌, length};
ghost use Rattle.encoding.specs.Pieces.{splice};
ghost use Rattle.encoding.specs.Refusals.{length_of};
ghost use Rattle.offsets.specs.Limits.{max_ranks, max_trees};
ghost use Rattle.offsets.specs.Table.{ranks as ranks_of};
ghost use Rattle.message.specs.Layout.{message_size};
ghost use Rattle.build_all.specs.Means.{message_to, messages_below, BuildFrom, BuildTo};
ghost use Rattle.message_build.specs.Means.{built_range};

use encoding::refusal::Refusal;
use message::layout::ghost_at;
use message_build::length::going;
use message_build::write::write_message;
use message_ghosts::Sending;
use pattern::range::{lower_rank, sent_near, upper_rank};
use pattern::window::window_of;

// Who sends: a rank with its part, and the two tables.
#[derive(Clone, Copy)]
pub struct Sender<'a> {
    pub part: &'a [u8],
    pub old: &'a [u8],
    pub new: &'a [u8],
    pub rank: u32,
}

// How long the message to q is, in any epoch; 0 where it is sent nothing. `lower` and `upper` are the ranks that have trees on either side of the sender.
fn length_to(from: Sender<'_>, q: u32, lower: usize, upper: usize, marks: &mut [u64]) -> usize
    requires { BuildTo from.part.now from.old.now from.new.now from.rank q lower upper marks.old }
    ensures { ((epoch : ℕ) → result ≡ length (message_to from.entry.part.now from.entry.old.now from.entry.new.now from.entry.rank epoch q)) × (result ≤ message_size max_trees max_trees) }
{
    let sent = sent_near(
        from.old,
        from.new,
        from.rank as usize,
        q as usize,
        lower,
        upper,
    );
    let n = sent.count;
    if n == 0 {
        return 0;
    }
    let sending = Sending {
        part: from.part,
        old: from.old,
        new: from.new,
        sender: from.rank,
        receiver: q,
        first: sent.first,
        count: n,
    };
    let g = going(sending, &mut *marks);
    ghost_at(n, g)
}

// Writes the message to q, if it is sent anything: how long it is.
fn write_to(
    from: Sender<'_>,
    q: u32,
    lower: usize,
    upper: usize,
    epoch: u32,
    marks: &mut [u64],
    out: &mut [u8],
) -> usize
    requires { BuildTo from.part.now from.old.now from.new.now from.rank q lower upper marks.old × (length (message_to from.part.now from.old.now from.new.now from.rank epoch q) ≤ length out.old) }
    ensures { (result ≡ length (message_to from.entry.part.now from.entry.old.now from.entry.new.now from.entry.rank epoch q)) × (out.new ≡ splice out.old 0 (message_to from.entry.part.now from.entry.old.now from.entry.new.now from.entry.rank epoch q)) }
{
    let sent = sent_near(
        from.old,
        from.new,
        from.rank as usize,
        q as usize,
        lower,
        upper,
    );
    let n = sent.count;
    if n == 0 {
        return 0;
    }
    let sending = Sending {
        part: from.part,
        old: from.old,
        new: from.new,
        sender: from.rank,
        receiver: q,
        first: sent.first,
        count: n,
    };
    let g = going(sending, &mut *marks);
    write_message(sending, g, epoch, &*marks, &mut *out);
    ghost_at(n, g)
}

// How long the messages to all ranks are together. Only the ranks of the window are asked: the others are sent nothing.
pub fn messages_length(from: Sender<'_>, marks: &mut [u64]) -> usize
    requires { BuildFrom from.part.now from.old.now from.new.now from.rank marks.old }
    ensures { ((epoch : ℕ) → result ≡ length (messages_below from.entry.part.now from.entry.old.now from.entry.new.now from.entry.rank epoch (ranks_of from.entry.old.now))) × (result ≤ max_ranks * message_size max_trees max_trees) }
{
    let p = from.rank as usize;
    let window = window_of(from.old, from.new, p, true);
    let end = window.end as u32;
    let lower = lower_rank(from.old, p);
    let upper = upper_rank(from.old, p);
    let mut total = 0;
    for q in window.first as u32..end {
        total += length_to(from, q, lower, upper, &mut *marks);
    }
    total
}

// Writes the messages to all ranks, end to end.
pub fn write_messages(from: Sender<'_>, epoch: u32, marks: &mut [u64], out: &mut [u8])
    requires { BuildFrom from.part.now from.old.now from.new.now from.rank marks.old × (length (messages_below from.part.now from.old.now from.new.now from.rank epoch (ranks_of from.old.now)) ≤ length out.old) }
    ensures { out.new ≡ splice out.old 0 (messages_below from.entry.part.now from.entry.old.now from.entry.new.now from.entry.rank epoch (ranks_of from.entry.old.now)) }
{
    let p = from.rank as usize;
    let window = window_of(from.old, from.new, p, true);
    let end = window.end as u32;
    let lower = lower_rank(from.old, p);
    let upper = upper_rank(from.old, p);
    let mut at = 0;
    for q in window.first as u32..end {
        at += write_to(from, q, lower, upper, epoch, &mut *marks, &mut out[at..]);
    }
}

// Builds the messages to all ranks, end to end, if there is room for them (22).
pub fn build_messages(
    from: Sender<'_>,
    epoch: u32,
    marks: &mut [u64],
    out: &mut [u8],
) -> Result<u64, Refusal>
    requires { BuildFrom from.part.now from.old.now from.new.now from.rank marks.old }
    ensures { (length_of result, out.new) ≡ built_range (messages_below from.entry.part.now from.entry.old.now from.entry.new.now from.entry.rank epoch (ranks_of from.entry.old.now)) out.old }
{
    let total = messages_length(from, &mut *marks);
    if out.len() < total {
        return Err(Refusal::Buffer);
    }
    write_messages(from, epoch, &mut *marks, &mut *out);
    Ok(total as u64)
}
