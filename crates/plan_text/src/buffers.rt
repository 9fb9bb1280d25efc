// The plan, with lent buffers for the two tables.
ghost use Rattle.std.specs.Prelude.{◌≡◌, ◌≤◌, length};
ghost use Rattle.encoding.specs.Refusals.{length_of};
ghost use Rattle.offsets.specs.Table.{table_length};
ghost use Rattle.plan_write.specs.Moves.{plan_ranks};
ghost use Rattle.plan_text.specs.Plan.{plan_ranks_ok, plan_answer};
ghost use Rattle.plan_text.specs.Means.{tables_answer};

use encoding::refusal::Refusal;
use pattern::tables::check_tables;
use plan_read::input::read_input;
use plan_write::output::write_moves;

// The program's own limit of P.
const PLAN_RANKS: usize = 1024;

fn plan_ranks_ok(ranks: usize) -> bool
    ensures { result ≡ plan_ranks_ok ranks }
{
    (1 <= ranks) & (ranks <= PLAN_RANKS)
}

// The plan of two tables within that limit (2, 3, 4), if it fits (22).
fn plan_tables(old: &[u8], new: &[u8], out: &mut [u8]) -> Result<u64, Refusal>
    requires { length old.now ≤ table_length plan_ranks }
    ensures { (length_of result, out.new) ≡ tables_answer old.now new.now out.old }
{
    check_tables(old, new)?;
    write_moves(old, new, &mut *out)
}

// The same for an input, with room for the tables of so many ranks (1, 2).
pub fn plan_in(text: &[u8], old: &mut [u8], new: &mut [u8], out: &mut [u8]) -> Result<u64, Refusal>
    requires { (table_length plan_ranks ≤ length old.old) × (table_length plan_ranks ≤ length new.old) }
    ensures { (length_of result, out.new) ≡ plan_answer text.now out.old }
{
    let ranks = read_input(text, &mut *old, &mut *new).ok_or(Refusal::Input)? as usize;
    if !plan_ranks_ok(ranks) {
        return Err(Refusal::Ranks);
    }
    let end = 8 * (ranks + 1);
    plan_tables(&old[..end], &new[..end], &mut *out)
}
