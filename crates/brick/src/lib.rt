// Bricks of hexahedra, each axis periodic or not.
#![tactic(auto)]

ghost use Rattle.std.specs.Prelude.{◌≡◌};
ghost use Rattle.encoding.specs.Refusals.{length_of};
ghost use Rattle.brick.specs.Calls.{brick_length_of, write_brick_of};

use encoding::refusal::Refusal;

mod extents;
mod trees;

// How long the mesh of a brick is (26).
pub fn brick_length(a: u32, b: u32, c: u32) -> Result<u64, Refusal>
    ensures { length_of result ≡ brick_length_of a b c }
{
    if !extents::extents_ok(a, b, c) {
        return Err(Refusal::Extent);
    }
    Ok(extents::mesh_length(a, b, c))
}

// Write the whole mesh of a brick (26, 22). p, q and r say whether an axis is periodic: 0 is no, any other number yes.
pub fn write_brick(
    a: u32,
    b: u32,
    c: u32,
    p: u32,
    q: u32,
    r: u32,
    out: &mut [u8],
) -> Result<u64, Refusal>
    ensures { (length_of result, out.new) ≡ write_brick_of a b c p q r out.old }
{
    let length = brick_length(a, b, c)?;
    if (out.len() as u64) < length {
        return Err(Refusal::Buffer);
    }
    trees::write_trees(&mut *out, a, b, c, p != 0, q != 0, r != 0);
    Ok(length)
}
