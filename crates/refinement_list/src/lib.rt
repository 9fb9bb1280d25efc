// The leaf counts of a list of trees, from their refinement strings.
#![tactic(auto)]

ghost use Rattle.std.specs.Prelude.{◌≡◌};
ghost use Rattle.encoding.specs.Refusals.{count_of};
ghost use Rattle.refinement_list.specs.Calls.{leaf_counts};

use encoding::refusal::Refusal;

mod trees;

// Write the leaf count of each tree, given by its shape and its string; the strings stand end to end (6, 24, 23, 25, 22).
pub fn leaf_counts(
    shapes: &[u32],
    lengths: &[u32],
    bits: &[u8],
    out: &mut [u32],
) -> Result<u32, Refusal>
    ensures { (count_of result, out.new) ≡ leaf_counts shapes.now lengths.now bits.now out.old }
{
    if !trees::trees_ok(shapes.len(), lengths.len()) {
        return Err(Refusal::Partition);
    }
    if !trees::shapes_ok(shapes) {
        return Err(Refusal::Shape);
    }
    trees::check_strings(shapes, lengths, bits)?;
    if out.len() < shapes.len() {
        return Err(Refusal::Buffer);
    }
    trees::write(shapes, lengths, bits, out);
    Ok(shapes.len() as u32)
}
