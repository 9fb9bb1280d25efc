// Whether a record beside a tree that p sends q goes with the message.
ghost use Rattle.std.specs.Prelude.{◌≡◌, ◌≤◌};
ghost use Rattle.pattern.specs.Means.{RankOf};
ghost use Rattle.part.specs.Part.{part_first};
ghost use Rattle.message_ghosts.specs.Means.{number_in, across_at, AtFace, Beside, CutAt, BoundAt};
ghost use Rattle.message_ghosts.specs.MeansSent.{KnownPart, HasRecord, RangesOf, LocalsOf, is_sent_before, is_beside_before, has_to_go};

use crate::Sending;
use crate::read::across;
use part::layout::record_at;
use part::range::within;
use records::index::{GlobalIndex, LocalIndex, to_local};

// Ranges of q's trees: from `first` to before `end` under the new table, and of those the ones that q gets from itself or from a rank below p, to before `below` and from `kept` to before `until`.
#[derive(Clone, Copy)]
pub struct Ranges {
    pub first: u32,
    pub end: u32,
    pub below: u32,
    pub kept: u32,
    pub until: u32,
}

// Where k cuts a range: k itself, or the end of the range that is nearer.
fn cut_at(low: u32, high: u32, k: u64) -> u32
    requires { low ≤ high }
    ensures { CutAt low high k result }
{
    k.clamp(low as u64, high as u64) as u32
}

// The ranges, read once for a message. To one rank the sender never falls from tree to tree, so the ranks below the sender send what is before the first tree from it.
pub fn ranges_of(sending: Sending<'_>) -> Ranges
    requires { RankOf sending.old.now sending.new.now sending.receiver }
    ensures { RangesOf sending.entry result }
{
    let q = sending.receiver as usize;
    let first = offsets::table::first_tree(sending.new, q) as u32;
    let end = offsets::table::end_tree(sending.new, q) as u32;
    let below = cut_at(first, end, sending.first as u64);
    let kept = cut_at(first, end, offsets::table::first_tree(sending.old, q));
    let until = cut_at(kept, end, offsets::table::end_tree(sending.old, q));
    Ranges {
        first,
        end,
        below,
        kept,
        until,
    }
}

// Whether the receiver gets the tree from itself or from a rank below the sender.
fn sent_before(sending: Sending<'_>, of: Ranges, tree: GlobalIndex) -> bool
    requires { RangesOf sending of }
    ensures { result ≡ is_sent_before sending.entry tree.0 }
{
    let h = tree.0;
    within(of.first, of.below, h) | within(of.kept, of.until, h)
}

// The sender's own trees that the receiver gets so, by their local index: from `first` to before `below`, and from `kept` to before `until`.
#[derive(Clone, Copy)]
pub struct Locals {
    pub first: u32,
    pub below: u32,
    pub kept: u32,
    pub until: u32,
}

// How many of the sender's trees come before a bound.
fn bound_at(own: GlobalIndex, count: u32, bound: u32) -> u32
    ensures { BoundAt own.0 count bound result }
{
    if bound <= own.0 {
        return 0;
    }
    let local = to_local(GlobalIndex(bound), own);
    if count < local.0 {
        return count;
    }
    local.0
}

// The ranges among the sender's own trees, which begin with `own`.
pub fn locals_of(sending: Sending<'_>, own: GlobalIndex, count: u32, of: Ranges) -> Locals
    requires { KnownPart sending count × (own.0 ≡ part_first sending.part.now) × RangesOf sending of }
    ensures { LocalsOf sending.entry count result }
{
    Locals {
        first: bound_at(own, count, of.first),
        below: bound_at(own, count, of.below),
        kept: bound_at(own, count, of.kept),
        until: bound_at(own, count, of.until),
    }
}

// Whether the receiver gets the neighbour across a face so. One of the sender's own trees is told by its local index, and its record isn't read: on meshes whose links lead far that is what takes the time.
fn across_before(
    sending: Sending<'_>,
    count: u32,
    of: Ranges,
    here: Locals,
    local: LocalIndex,
    face: u32,
) -> bool
    requires { AtFace sending.part.now count local.0 face × RangesOf sending of × LocalsOf sending count here }
    ensures { result ≡ is_sent_before sending.entry (across_at sending.entry.part.now count local.0 face) }
{
    if local.0 < count {
        let next = records::read::neighbour_of(sending.part, record_at(count, local), face);
        if next < count {
            return within(here.first, here.below, next) | within(here.kept, here.until, next);
        }
    }
    sent_before(sending, of, across(sending.part, count, local, face))
}

// Whether a record with so many faces is beside such a tree. All faces are asked: on meshes whose links lead far, an end at the first is often foretold wrongly.
fn beside_before(
    sending: Sending<'_>,
    count: u32,
    of: Ranges,
    here: Locals,
    local: LocalIndex,
    faces: u32,
) -> bool
    requires { Beside sending.part.now count local.0 faces × RangesOf sending of × LocalsOf sending count here }
    ensures { result ≡ is_beside_before sending.entry (number_in sending.entry.part.now count local.0) faces }
{
    let mut found = false;
    for face in 0..faces {
        found |= across_before(sending, count, of, here, local, face);
    }
    found
}

// Whether a record, with its number, goes: the receiver hasn't it, and no other sender of a neighbour comes before this one.
pub fn goes(
    sending: Sending<'_>,
    count: u32,
    of: Ranges,
    here: Locals,
    local: LocalIndex,
    number: GlobalIndex,
) -> bool
    requires { HasRecord sending count local.0 × (number.0 ≡ number_in sending.part.now count local.0) × RangesOf sending of × LocalsOf sending count here }
    ensures { result ≡ has_to_go sending.entry number.0 }
{
    let k = number.0;
    if within(of.first, of.end, k) {
        return false;
    }
    if sending.sender == sending.receiver {
        return true;
    }
    let at = record_at(count, local);
    let faces = records::shape::face_count(records::read::shape_of(sending.part, at));
    !beside_before(sending, count, of, here, local, faces)
}
