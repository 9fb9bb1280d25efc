// The leaf count of a tree, from its refinement string.
#![tactic(auto)]

ghost use Rattle.std.specs.Prelude.{◌≡◌};
ghost use Rattle.refinement.specs.Answers.{leaves_of};
ghost use Rattle.refinement.specs.Calls.{count_leaves};

use encoding::refusal::Refusal;

pub mod walk;

// How many leaves a tree has: upright, inverted, and all.
#[derive(Clone, Copy, Debug, PartialEq, Eq)]
pub struct LeafCount {
    pub upright: u32,
    pub inverted: u32,
    pub leaves: u32,
}

// The same as C gets it. When refused, `refusal` is the number of the first check that failed and the rest is 0.
#[repr(C)]
#[derive(Clone, Copy)]
pub struct Leaves {
    pub refusal: u32,
    pub upright: u32,
    pub inverted: u32,
    pub leaves: u32,
}

impl From<Result<LeafCount, Refusal>> for Leaves {
    ghost from_gives = { λ answer leaves. leaves ≡ leaves_of answer };

    fn from(answer: Result<LeafCount, Refusal>) -> Leaves {
        match answer {
            Ok(count) => Leaves {
                refusal: 0,
                upright: count.upright,
                inverted: count.inverted,
                leaves: count.leaves,
            },
            Err(refusal) => Leaves {
                refusal: refusal.number(),
                upright: 0,
                inverted: 0,
                leaves: 0,
            },
        }
    }
}

// Count the leaves of a tree's refinement, given by its string (24, 23, 25).
pub fn count_leaves(shape: u32, bits: &[u8]) -> Result<LeafCount, Refusal>
    ensures { leaves_of result ≡ count_leaves shape bits.now }
{
    if !walk::shape_ok(shape) {
        return Err(Refusal::Shape);
    }
    let Some(t) = walk::tree(shape, bits) else {
        return Err(Refusal::String);
    };
    let n = t.upright + t.inverted;
    if 16777216 < n {
        return Err(Refusal::Leaves);
    }
    Ok(LeafCount {
        upright: t.upright as u32,
        inverted: t.inverted as u32,
        leaves: n as u32,
    })
}
