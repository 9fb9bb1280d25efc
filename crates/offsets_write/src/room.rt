// The checks that every call makes that writes a table: how many ranks it's for, and whether the buffer is long enough.
ghost use Rattle.std.specs.Prelude.{◌≡◌, true};
ghost use Rattle.std.specs.Result.{IfOk};
ghost use Rattle.encoding.specs.Refusals.{refusal_of};
ghost use Rattle.offsets.specs.Limits.{rank_count_ok};
ghost use Rattle.offsets.specs.Table.{table_length};
ghost use Rattle.offsets_write.specs.Means.{ranks_refusal, room_refusal};

use encoding::refusal::Refusal;
use offsets::table::rank_count_ok;

// Whether there are tables of so many ranks (2).
pub fn check_ranks(ranks: usize) -> Result<(), Refusal>
    ensures { refusal_of result ≡ ranks_refusal ranks }
{
    if !rank_count_ok(ranks) {
        return Err(Refusal::Ranks);
    }
    Ok(())
}

// How long the table of so many ranks is.
pub fn length(ranks: usize) -> usize
    requires { rank_count_ok ranks ≡ true }
    ensures { result ≡ table_length ranks }
{
    8 * (ranks + 1)
}

// The same, where `out` has room for it (22).
pub fn check_room(ranks: usize, out: &[u8]) -> Result<u64, Refusal>
    requires { rank_count_ok ranks ≡ true }
    ensures { (refusal_of result ≡ room_refusal ranks out.now) × IfOk result (λ n. n ≡ table_length ranks) }
{
    let n = length(ranks);
    if out.len() < n {
        return Err(Refusal::Buffer);
    }
    Ok(n as u64)
}
