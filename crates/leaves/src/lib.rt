// The table that leaf counts give.
#![tactic(auto)]

ghost use Rattle.std.specs.Prelude.{◌≡◌};
ghost use Rattle.encoding.specs.Refusals.{length_of};
ghost use Rattle.leaves.specs.Calls.{table_from_leaves, table_from_weights, table_from_blocks};

use encoding::refusal::Refusal;
use leaf_shares::counts::{leaves_ok, total};
use offsets_write::room::{check_ranks, check_room};

mod blocks;
mod weights;

// Write the table that leaf counts give, one count for each tree (2, 6, 22).
pub fn table_from_leaves(ranks: u32, leaves: &[u32], out: &mut [u8]) -> Result<u64, Refusal>
    ensures { (length_of result, out.new) ≡ table_from_leaves ranks leaves.now out.old }
{
    let p = ranks as usize;
    check_ranks(p)?;
    if !leaves_ok(leaves) {
        return Err(Refusal::Partition);
    }
    let n = check_room(p, out)?;
    leaf_shares::table::write(p, leaves, total(leaves), out);
    Ok(n)
}

// Write the table that leaf counts give to ranks of unequal speed, one weight for each rank (2, 30, 6, 22).
pub fn table_from_weights(weights: &[u32], leaves: &[u32], out: &mut [u8]) -> Result<u64, Refusal>
    ensures { (length_of result, out.new) ≡ table_from_weights weights.now leaves.now out.old }
{
    let p = weights.len();
    check_ranks(p)?;
    if !weights::weights_ok(weights) {
        return Err(Refusal::Weights);
    }
    if !leaves_ok(leaves) {
        return Err(Refusal::Partition);
    }
    let n = check_room(p, out)?;
    weights::write(weights, leaves, total(leaves), out);
    Ok(n)
}

// Write the table that leaf counts give, with a sum for each block of 256 trees (2, 6, 22).
pub fn table_from_blocks(
    ranks: u32,
    leaves: &[u32],
    sums: &[u64],
    out: &mut [u8],
) -> Result<u64, Refusal>
    ensures { (length_of result, out.new) ≡ table_from_blocks ranks leaves.now sums.now out.old }
{
    let p = ranks as usize;
    check_ranks(p)?;
    if !blocks::blocks_ok(leaves, sums) {
        return Err(Refusal::Partition);
    }
    let n = check_room(p, out)?;
    leaf_shares::table::write(p, leaves, blocks::total(sums), out);
    Ok(n)
}
