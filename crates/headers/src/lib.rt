// What is wrong with the header or the length of a part or a whole mesh: the first field that isn't what is due.
#![tactic(auto)]

ghost use Rattle.std.specs.Prelude.{◌≡◌};
ghost use Rattle.headers.specs.Answers.{wrong_of, answer_of};
ghost use Rattle.headers.specs.Calls.{part_header_of, mesh_header_of};

use answer::Wrong;
use encoding::refusal::Refusal;

pub mod answer;
mod fields;

// The first wrong field of a part for a table and a rank (2, 3, 5).
pub fn part_header(part: &[u8], table: &[u8], rank: u32) -> Result<Option<Wrong>, Refusal>
    ensures { answer_of result ≡ part_header_of part.now table.now rank }
{
    part::range::check_rank(table, rank)?;
    Ok(fields::check_part(part, table, rank).err())
}

// The first wrong field of a whole mesh (no refusal).
pub fn mesh_header(mesh: &[u8]) -> Option<Wrong>
    ensures { wrong_of result ≡ mesh_header_of mesh.now }
{
    fields::check_mesh(mesh).err()
}
