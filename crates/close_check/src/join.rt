// Whether the records in an area's slots make a sound part, as `linked` looks at them (proofs/OneLoop.antt). Trees and ghosts have global numbers here, and links are followed by these.
ghost use Rattle.std.specs.Prelude.{◌≡◌, ◌+◌, ◌*◌, ◌≤◌, length};
ghost use Rattle.offsets.specs.Limits.{max_trees};
ghost use Rattle.area.specs.Area.{area_k, area_count, area_new, area_first};
ghost use Rattle.area.specs.Means.{HeaderHolds};
ghost use Rattle.close_check.specs.Means.{join_sound, Complete, SlotsOf, GhostsIndexed};

use linked::layout::Records;
use records::index::GlobalIndex;

// The first tree of the new range.
pub fn first_tree(area: &[u8]) -> GlobalIndex
    requires { HeaderHolds area.now }
    ensures { (result.0 ≡ area_first area.now) × (result.0 + area_count area.now ≤ max_trees) }
{
    let tables = area::read::tables_of(area);
    let first = offsets::table::first_tree(tables.new, area::read::rank(area)) as u32;
    GlobalIndex(first)
}

// The records in the slots.
fn slots_of(area: &[u8]) -> Records
    requires { HeaderHolds area.now }
    ensures { SlotsOf area.now result }
{
    let ranks = area::read::ranks(area);
    let count = area::read::count(area);
    Records {
        head: area::layout::slots_place(ranks),
        tail: area::layout::ghost_slots_place(ranks, count),
        first: first_tree(area),
        count,
        ghosts: area::read::ghosts(area),
        dimension: area::read::dimension(area),
        trees: area::read::trees(area),
        local: false,
    }
}

// Whether the part that a sound area with every due sender heard makes is sound.
pub fn join_sound(area: &[u8]) -> bool
    requires { Complete area.now (area_new area.now) }
    ensures { result ≡ join_sound area.now }
{
    linked::check::linked_of_all(area, slots_of(area))
}

// The same, by the index of the area's ghosts.
pub fn join_by(area: &[u8], marks: &[u64], behind: &[u32]) -> bool
    requires { Complete area.now (area_new area.now) × GhostsIndexed area.now marks.now behind.now × (area_k area.now ≤ 64 * length marks.now) }
    ensures { result ≡ join_sound area.now }
{
    linked::check::linked_by(area, slots_of(area), marks, behind)
}
