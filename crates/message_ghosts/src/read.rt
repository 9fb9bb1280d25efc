// The records of a part by their local index: trees first, then ghosts.
ghost use Rattle.std.specs.Prelude.{◌≡◌, ◌+◌, ◌≤◌, length};
ghost use Rattle.records.specs.Record.{core_size};
ghost use Rattle.part.specs.Means.{record_place};
ghost use Rattle.message_ghosts.specs.Means.{number_in, across_at, AtFace};

use part::layout::record_at;
use records::index::{GlobalIndex, LocalIndex};

// The number of a record, as it stands in it.
pub fn number_at(part: &[u8], count: u32, local: LocalIndex) -> GlobalIndex
    requires { record_place count local.0 + core_size ≤ length part.now }
    ensures { result.0 ≡ number_in part.now count local.0 }
{
    GlobalIndex(records::read::number_of(part, record_at(count, local)))
}

// The number of the neighbour across a face: a tree stores a local index, a ghost the number.
pub fn across(part: &[u8], count: u32, local: LocalIndex, face: u32) -> GlobalIndex
    requires { AtFace part.now count local.0 face }
    ensures { result.0 ≡ across_at part.now count local.0 face }
{
    let next = records::read::neighbour_of(part, record_at(count, local), face);
    if local.0 < count {
        return number_at(part, count, LocalIndex(next));
    }
    GlobalIndex(next)
}
