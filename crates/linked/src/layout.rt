// Records that stand together: tree records from one byte on, ghost records from another.
ghost use Rattle.std.specs.Prelude.{◌≡◌, ◌+◌, ◌*◌, ◌<◌};
ghost use Rattle.records.specs.Record.{tree_size};
ghost use Rattle.linked.specs.Means.{record_place, Room};

use records::index::{GlobalIndex, LocalIndex};

// `count` tree records from byte `head` on, with the numbers from `first` on, and `ghosts` core records from byte `tail` on, which ascend; `trees` is K. `local`: tree records name their neighbours by local index, as in a part; else by number, as in an area.
#[derive(Clone, Copy)]
pub struct Records {
    pub head: usize,
    pub tail: usize,
    pub first: GlobalIndex,
    pub count: u32,
    pub ghosts: u32,
    pub dimension: u32,
    pub trees: u32,
    pub local: bool,
}

// Where the record of a tree begins.
pub fn tree_at(x: Records, tree: LocalIndex) -> usize
    requires { Room x × (tree.0 < x.count) }
    ensures { result ≡ x.head + tree_size * tree.0 }
{
    let i = tree.0;
    x.head + 64 * (i as usize)
}

// Where a record begins: trees first, then ghosts.
pub fn record_at(x: Records, place: LocalIndex) -> usize
    requires { Room x × (place.0 < x.count + x.ghosts) }
    ensures { result ≡ record_place x place.0 }
{
    let j = place.0;
    if j < x.count {
        return x.head + 64 * (j as usize);
    }
    x.tail + 40 * ((j - x.count) as usize)
}
