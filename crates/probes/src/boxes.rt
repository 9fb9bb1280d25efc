// The box in a tree's data, and whether a probe meets it. Whether a box or a probe is sound is decided on bits, as integers: an ordered comparison of floats raises a flag at a NaN, or traps where the caller enabled that.
ghost use Rattle.std.specs.Prelude.{◌≡◌, true, not, ◌<◌};
ghost use Rattle.std.specs.Float.{binary32};
ghost use Rattle.std.specs.Float.Ieee.{is_nan, of_bits};
ghost use Rattle.probes.specs.Probes.{box_number, axis_ok, box_ok, probe_ok, meets as meets_box};
ghost use Rattle.probes.specs.Means.{box_bits, order_of, HasTree, HasBox};

use crate::Probe;
use part::layout::tree_at;
use records::index::LocalIndex;

// Whether the bits are those of a number and not of a NaN.
fn bits_ok(bits: u32) -> bool
    ensures { result ≡ not (is_nan (of_bits binary32 bits)) }
{
    !(2139095040 < bits % 2147483648)
}

// The place of a number's bits in the order of the floats: both zeros have the middle one.
fn order(bits: u32) -> u32
    ensures { result ≡ order_of bits }
{
    let size = bits % 2147483648;
    if 2147483648 <= bits {
        return 2147483648 - size;
    }
    2147483648 + size
}

// The bits of number k of the six of a tree's box.
fn bits_of(part: &[u8], tree: LocalIndex, k: u32) -> u32
    requires { HasTree part.now tree.0 × (k < 6) }
    ensures { result ≡ box_bits part.now tree.0 k }
{
    encoding::bytes::read_u32(part, tree_at(tree) + (40 + 4 * (k as usize)))
}

// Number k of the six of a sound box.
fn number_of(part: &[u8], tree: LocalIndex, k: u32) -> f32
    requires { HasBox part.now tree.0 × (k < 6) }
    ensures { result ≡ box_number part.now tree.0 k }
{
    f32::from_bits(bits_of(part, tree, k))
}

// Whether a box has two numbers on an axis, the low one not above the high one.
fn axis_ok(part: &[u8], tree: LocalIndex, axis: u32) -> bool
    requires { HasTree part.now tree.0 × (axis < 3) }
    ensures { result ≡ axis_ok part.now tree.0 axis }
{
    let low = bits_of(part, tree, axis);
    let high = bits_of(part, tree, 3 + axis);
    bits_ok(low) & bits_ok(high) & !(order(high) < order(low))
}

pub fn box_ok(part: &[u8], tree: LocalIndex) -> bool
    requires { HasTree part.now tree.0 }
    ensures { result ≡ box_ok part.now tree.0 }
{
    axis_ok(part, tree, 0) & axis_ok(part, tree, 1) & axis_ok(part, tree, 2)
}

pub fn probe_ok(probe: Probe) -> bool
    ensures { result ≡ probe_ok probe }
{
    match probe {
        Probe::Point(x, y, z) => !x.is_nan() & !y.is_nan() & !z.is_nan(),
        Probe::HalfSpace(axis, limit) => (axis < 3) & !limit.is_nan(),
        Probe::Slab(axis, lower, upper) => {
            ((axis < 3) & !lower.is_nan() & !upper.is_nan())
                && !(order(upper.to_bits()) < order(lower.to_bits()))
        }
    }
}

// Whether a probe meets the box of a tree.
pub fn meets(part: &[u8], tree: LocalIndex, probe: Probe) -> bool
    requires { HasBox part.now tree.0 × (probe_ok probe ≡ true) }
    ensures { result ≡ meets_box probe part.now tree.0 }
{
    match probe {
        Probe::Point(x, y, z) => {
            (number_of(part, tree, 0) <= x)
                & (x <= number_of(part, tree, 3))
                & (number_of(part, tree, 1) <= y)
                & (y <= number_of(part, tree, 4))
                & (number_of(part, tree, 2) <= z)
                & (z <= number_of(part, tree, 5))
        }
        Probe::HalfSpace(axis, limit) => number_of(part, tree, axis) <= limit,
        Probe::Slab(axis, lower, upper) => {
            (number_of(part, tree, axis) <= upper) & (lower <= number_of(part, tree, 3 + axis))
        }
    }
}
