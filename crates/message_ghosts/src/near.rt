// What is across the faces of the trees sent, as a set of local indices: no record but theirs is read.
ghost use Rattle.std.specs.Prelude.{◌≡◌, ◌-◌};
ghost use Rattle.positions.specs.Means.{Added};
ghost use Rattle.part_cut.specs.Means.{out_trees};
ghost use Rattle.message_ghosts.specs.Means.{record_in};
ghost use Rattle.message_ghosts.specs.MeansSent.{RoomNear};

use crate::Sending;
use part_cut::ghosts::mark_faces;
use records::index::LocalIndex;

// Adds what is across the faces of the trees sent, from `start` to before `end`, but for these.
pub fn add_near(sending: Sending<'_>, count: u32, start: u32, end: u32, near: &mut [u64])
    requires { RoomNear sending count start end near.old }
    ensures { Added near.old (out_trees (record_in sending.entry.part.now count) start end (end - start)) near.new }
{
    let part = sending.part;
    for i in start..end {
        let at = part::layout::tree_at(LocalIndex(i));
        let faces = records::shape::face_count(records::read::shape_of(part, at));
        mark_faces(part, at, faces, start, end, &mut *near);
    }
}
