// Parts stored by columns, and back.
#![tactic(auto)]

ghost use Rattle.std.specs.Prelude.{◌≡◌};
ghost use Rattle.encoding.specs.Refusals.{length_of};
ghost use Rattle.columns.specs.Calls.{part_to_columns, columns_to_part};

use encoding::refusal::Refusal;
use part::range::check_rank;

mod turn;

// Write a part by columns (2, 3, 5, 8, 22).
pub fn part_to_columns(part: &[u8], table: &[u8], rank: u32, out: &mut [u8]) -> Result<u64, Refusal>
    ensures { (length_of result, out.new) ≡ part_to_columns part.now table.now rank out.old }
{
    check_rank(table, rank)?;
    if !part_check::sound::part_sound(part, table, rank) {
        return Err(Refusal::Part);
    }
    if out.len() < part.len() {
        return Err(Refusal::Buffer);
    }
    turn::write_columns(part, &mut *out);
    Ok(part.len() as u64)
}

// Write the part of a column file (2, 3, 5, 33, 22). One function for both ways would take a check, a refusal and a writer, and be longer.
pub fn columns_to_part(
    columns: &[u8],
    table: &[u8],
    rank: u32,
    out: &mut [u8],
) -> Result<u64, Refusal>
    ensures { (length_of result, out.new) ≡ columns_to_part columns.now table.now rank out.old }
{
    check_rank(table, rank)?;
    if !columns_check::sound::columns_sound(columns, table, rank) {
        return Err(Refusal::Columns);
    }
    if out.len() < columns.len() {
        return Err(Refusal::Buffer);
    }
    turn::write_part(columns, &mut *out);
    Ok(columns.len() as u64)
}
