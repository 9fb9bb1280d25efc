// Writing the table of a partition.
#![tactic(auto)]

ghost use Rattle.std.specs.Prelude.{◌≡◌};
ghost use Rattle.encoding.specs.Refusals.{length_of};
ghost use Rattle.offsets_write.specs.Calls.{table_length_answer, write_table};

use encoding::refusal::Refusal;

mod ranges;
pub mod room;

// How long the table of so many ranks is (2).
pub fn table_length(ranks: u32) -> Result<u64, Refusal>
    ensures { length_of result ≡ table_length_answer ranks }
{
    let p = ranks as usize;
    room::check_ranks(p)?;
    Ok(room::length(p) as u64)
}

// Write the table of a partition: a first tree and a count for each rank (2, 6, 22). The first of a rank with count 0 isn't read.
pub fn write_table(ranks: u32, first: &[u32], count: &[u32], out: &mut [u8]) -> Result<u64, Refusal>
    ensures { (length_of result, out.new) ≡ write_table ranks first.now count.now out.old }
{
    let p = ranks as usize;
    room::check_ranks(p)?;
    if !ranges::partition_ok(p, first, count) {
        return Err(Refusal::Partition);
    }
    let n = room::check_room(p, out)?;
    ranges::write(first, count, out);
    Ok(n)
}
