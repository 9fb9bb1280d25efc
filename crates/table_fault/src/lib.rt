// Where a table fails: the first entry that is wrong, and what is wrong there.
#![tactic(auto)]

ghost use Rattle.std.specs.Prelude.{◌≡◌};
ghost use Rattle.faults.specs.Kinds.{answer_of};
ghost use Rattle.table_fault.specs.Calls.{table_fault_of};

use encoding::refusal::Refusal;
use faults::answer::Place;

mod table;

// The first fault of a table (2).
pub fn table_fault(table: &[u8]) -> Result<Option<Place>, Refusal>
    ensures { answer_of result ≡ table_fault_of table.now }
{
    if !offsets::table::ranks_ok(table) {
        return Err(Refusal::Ranks);
    }
    Ok(table::first_wrong(table))
}
