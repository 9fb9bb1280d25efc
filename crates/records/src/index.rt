// The two indices of a tree. A local index never stands where a global number is due.
ghost use Rattle.std.specs.Prelude.{◌≡◌, ◌+◌, ◌≤◌, ◌<◌, ◌^◌};

// The number of a tree in the whole mesh.
#[derive(Clone, Copy, Debug, PartialEq, Eq, PartialOrd, Ord)]
pub struct GlobalIndex(pub u32);

// The place of a tree or a ghost in a part: trees first, then ghosts.
#[derive(Clone, Copy, Debug, PartialEq, Eq, PartialOrd, Ord)]
pub struct LocalIndex(pub u32);

// The local index of a local tree, by subtraction of the part's first tree.
pub fn to_local(g: GlobalIndex, first: GlobalIndex) -> LocalIndex
    requires { first.0 ≤ g.0 }
    ensures { result.0 + first.0 ≡ g.0 }
{
    LocalIndex(g.0 - first.0)
}

// The local index of the ghost at a position, in a part with so many trees.
pub fn ghost_index(trees: u32, position: u32) -> LocalIndex
    requires { trees + position < 2 ^ 32 }
    ensures { result.0 ≡ trees + position }
{
    LocalIndex(trees + position)
}
