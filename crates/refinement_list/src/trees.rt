// Checks and counts over a list of trees, their strings end to end.
ghost use Rattle.std.specs.Prelude.{◌≡◌, ◌≤◌, length, eqb, ◌&&◌};
ghost use Rattle.encoding.specs.Pieces.{splice};
ghost use Rattle.encoding.specs.Refusals.{refusal_of};
ghost use Rattle.offsets.specs.Limits.{tree_count_ok};
ghost use Rattle.refinement_list.specs.Calls.{shapes_ok, count_list};
ghost use Rattle.refinement_list.specs.Means.{strings_refusal, Walkable};

use encoding::refusal::Refusal;
use refinement::walk::{shape_ok, tree};

pub fn trees_ok(shapes: usize, lengths: usize) -> bool
    ensures { result ≡ (eqb lengths shapes && tree_count_ok shapes) }
{
    (lengths == shapes) & offsets::table::tree_count_ok(shapes as u64)
}

pub fn shapes_ok(shapes: &[u32]) -> bool
    ensures { result ≡ shapes_ok shapes.now }
{
    for shape in shapes {
        if !shape_ok(*shape) {
            return false;
        }
    }
    true
}

// Whether all strings are in order, and then whether no tree has too many leaves (23, 25).
pub fn check_strings(shapes: &[u32], lengths: &[u32], bits: &[u8]) -> Result<(), Refusal>
    requires { length lengths.now ≡ length shapes.now }
    ensures { refusal_of result ≡ strings_refusal shapes.now lengths.now bits.now }
{
    let mut small = true;
    let mut at = 0;
    // by index: over a zip the search doesn't tell which tree a pair is of
    for i in 0..shapes.len() {
        let n = lengths[i] as usize;
        if bits.len() - at < n {
            return Err(Refusal::String);
        }
        let e = at + n;
        let Some(t) = tree(shapes[i], &bits[at..e]) else {
            return Err(Refusal::String);
        };
        small &= t.upright + t.inverted <= 16777216;
        at = e;
    }
    if at < bits.len() {
        return Err(Refusal::String);
    }
    if !small {
        return Err(Refusal::Leaves);
    }
    Ok(())
}

// The counts, at the start of `out`.
pub fn write(shapes: &[u32], lengths: &[u32], bits: &[u8], out: &mut [u32])
    requires walkable { Walkable shapes.now lengths.now bits.now }
    requires shapes_in_bounds { length shapes.now ≤ length out.old }
    ensures { out.new ≡ splice out.old 0 (count_list shapes.now lengths.now bits.now) }
{
    let mut at = 0;
    for i in 0..shapes.len() {
        let e = at + lengths[i] as usize;
        let t = tree(shapes[i], &bits[at..e]).unwrap();
        out[i] = (t.upright + t.inverted) as u32;
        at = e;
    }
}
