// Where a part fails: the first record that is wrong, and what is wrong there.
#![tactic(auto)]

ghost use Rattle.std.specs.Prelude.{◌≡◌};
ghost use Rattle.faults.specs.Kinds.{answer_of};
ghost use Rattle.part_fault.specs.Calls.{part_fault_of};

use encoding::refusal::Refusal;
use faults::answer::{Kind, Place, Wrong};

pub mod search;

// The first fault of a part for a table and a rank (2, 3, 5).
pub fn part_fault(part: &[u8], table: &[u8], rank: u32) -> Result<Option<Place>, Refusal>
    ensures { answer_of result ≡ part_fault_of part.now table.now rank }
{
    part::range::check_rank(table, rank)?;
    if !part_check::sound::header_sound(part, table, rank) {
        return Ok(Some(Place {
            fault: Refusal::Part,
            at: 0,
            wrong: Wrong {
                kind: Kind::Header,
                face: 0,
            },
        }));
    }
    Ok(search::first_wrong(part, search::extent_of(part)))
}
