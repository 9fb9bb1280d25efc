// Parts of P ranks on another number of ranks: tables of more or fewer ranks, parts without trees, and parts under another table and rank.
#![tactic(auto)]

ghost use Rattle.std.specs.Prelude.{◌≡◌};
ghost use Rattle.encoding.specs.Refusals.{length_of};
ghost use Rattle.restart.specs.Calls.{pad_table, empty_part_of, relabel_part};

use encoding::refusal::Refusal;

mod check;
mod entries;

// Write the table of so many ranks in which every rank of both has the same trees and each rank of only one is empty (2, 3, 64, 22).
pub fn pad_table(table: &[u8], ranks: u32, out: &mut [u8]) -> Result<u64, Refusal>
    ensures { (length_of result, out.new) ≡ pad_table table.now ranks out.old }
{
    let n = ranks as usize;
    check::check_pad(table, n)?;
    if out.len() < 8 * (n + 1) {
        return Err(Refusal::Buffer);
    }
    entries::write_entries(table, n, &mut *out);
    Ok(8 * (n as u64 + 1))
}

// Write the part of a rank without trees (2, 3, 5, 64, 22).
pub fn empty_part(table: &[u8], rank: u32, dimension: u32, out: &mut [u8]) -> Result<u64, Refusal>
    ensures { (length_of result, out.new) ≡ empty_part_of table.now rank dimension out.old }
{
    check::check_empty(table, rank, dimension)?;
    if out.len() < 32 {
        return Err(Refusal::Buffer);
    }
    let trees = offsets::table::trees(table) as u32;
    let ranks = offsets::table::ranks(table) as u32;
    let first = offsets::table::first_tree(table, rank as usize) as u32;
    encoding::header::write_eight(&mut *out, [dimension, trees, ranks, rank, first, 0, 0, 0]);
    Ok(32)
}

// Write the part under another table and rank with the same trees (2, 3, 5, 8, 65, 22): only P and the rank change.
pub fn relabel_part(
    part: &[u8],
    table: &[u8],
    rank: u32,
    other: &[u8],
    q: u32,
    out: &mut [u8],
) -> Result<u64, Refusal>
    ensures { (length_of result, out.new) ≡ relabel_part part.now table.now rank other.now q out.old }
{
    check::check_relabel(part, table, rank, other, q)?;
    if out.len() < part.len() {
        return Err(Refusal::Buffer);
    }
    encoding::bytes::copy_words(&mut out[..part.len()], part, part.len() / 8);
    encoding::bytes::write_u32(&mut *out, 8, offsets::table::ranks(other) as u32);
    encoding::bytes::write_u32(&mut *out, 12, q);
    Ok(part.len() as u64)
}
