// The bytes of a part: its header, and where its records begin.
ghost use Rattle.std.specs.Prelude.{◌≡◌, ◌+◌, ◌-◌, ◌%◌, ◌≤◌, length};
ghost use Rattle.part.specs.Layout.{part_header, tree_place, ghost_place};
ghost use Rattle.part.specs.Means.{record_place};
ghost use Rattle.part.specs.Part.{part_dimension, part_k, part_first, part_count, part_ghost_count};

use records::index::{GlobalIndex, LocalIndex};

// Where the record of a tree begins.
pub fn tree_at(tree: LocalIndex) -> usize
    ensures { result ≡ tree_place tree.0 }
{
    let i = tree.0;
    32 + 64 * (i as usize)
}

// Where ghost j of a part with `count` trees begins.
pub fn ghost_at(count: u32, j: u32) -> usize
    ensures { result ≡ ghost_place count j }
{
    32 + (64 * (count as usize) + 40 * (j as usize))
}

// Where a record of a part with `count` trees begins: trees first, then ghosts.
pub fn record_at(count: u32, local: LocalIndex) -> usize
    ensures { result ≡ record_place count local.0 }
{
    let j = local.0;
    if j < count {
        return tree_at(local);
    }
    ghost_at(count, j - count)
}

pub fn dimension(part: &[u8]) -> u32
    requires { part_header ≤ length part.now }
    ensures { result ≡ part_dimension part.now }
{
    encoding::bytes::read_u32(part, 0)
}

// K.
pub fn trees(part: &[u8]) -> u32
    requires { part_header ≤ length part.now }
    ensures { result ≡ part_k part.now }
{
    encoding::bytes::read_u32(part, 4)
}

pub fn first_tree(part: &[u8]) -> GlobalIndex
    requires { part_header ≤ length part.now }
    ensures { result.0 ≡ part_first part.now }
{
    GlobalIndex(encoding::bytes::read_u32(part, 16))
}

// n.
pub fn tree_count(part: &[u8]) -> u32
    requires { part_header ≤ length part.now }
    ensures { result ≡ part_count part.now }
{
    encoding::bytes::read_u32(part, 20)
}

// g.
pub fn ghost_count(part: &[u8]) -> u32
    requires { part_header ≤ length part.now }
    ensures { result ≡ part_ghost_count part.now }
{
    encoding::bytes::read_u32(part, 24)
}

// The place of a number among consecutive ones, of which that at j is `own`.
pub fn place_near(j: u32, own: u32, number: u32) -> u32
    ensures { result ≡ (j + number + (4294967296 - own)) % 4294967296 }
{
    j.wrapping_add(number).wrapping_sub(own)
}
