// The checks of the fields of a header, from the first to the last.
ghost use Rattle.std.specs.Prelude.{◌≡◌};
ghost use Rattle.part.specs.Means.{RankKnown};
ghost use Rattle.headers.specs.Answer.{first_wrong, one_of, exactly as exactly_due};
ghost use Rattle.headers.specs.Answers.{field_number};
ghost use Rattle.headers.specs.Fields.{part_fields, mesh_fields};
ghost use Rattle.headers.specs.Means.{checked_of, Checked};

use crate::answer::{Field, Wrong};

// A field in which one number is right.
fn exactly(field: Field, due: u64, found: u64) -> Result<(), Wrong>
    ensures { Checked (exactly_due (field_number field) due found) result }
{
    if found == due {
        return Ok(());
    }
    Err(Wrong {
        field,
        due: Some(due),
        found,
    })
}

// A field in which several numbers are right.
fn one_of(field: Field, right: bool, found: u32) -> Result<(), Wrong>
    ensures { Checked (one_of (field_number field) right found) result }
{
    if right {
        return Ok(());
    }
    Err(Wrong {
        field,
        due: None,
        found: u64::from(found),
    })
}

// A part, for a valid table and a rank of it.
pub fn check_part(part: &[u8], table: &[u8], rank: u32) -> Result<(), Wrong>
    requires { RankKnown table.now rank }
    ensures { checked_of result ≡ first_wrong (part_fields part.now table.now rank) }
{
    let length = part.len() as u64;
    if length < 32 {
        return Err(Wrong {
            field: Field::Short,
            due: Some(32),
            found: length,
        });
    }
    let dimension = part::layout::dimension(part);
    let trees = part::layout::trees(part) as u64;
    let ranks = encoding::bytes::read_u32(part, 8) as u64;
    let own = encoding::bytes::read_u32(part, 12) as u64;
    let first = part::layout::first_tree(part).0 as u64;
    let count = part::layout::tree_count(part);
    let last = encoding::bytes::read_u32(part, 28) as u64;
    let size = part::layout::ghost_at(count, part::layout::ghost_count(part)) as u64;
    let ranks_due = offsets::table::ranks(table);
    let trees_due = offsets::table::entry(table, ranks_due);
    let first_due = offsets::table::first_tree(table, rank as usize);
    let count_due = offsets::table::end_tree(table, rank as usize) - first_due;
    let dimension_ok = mesh::layout::dimension_ok(dimension);
    one_of(Field::Dimension, dimension_ok, dimension)?;
    exactly(Field::Trees, trees_due, trees)?;
    exactly(Field::Ranks, ranks_due as u64, ranks)?;
    exactly(Field::Rank, rank as u64, own)?;
    exactly(Field::First, first_due, first)?;
    exactly(Field::Count, count_due, count as u64)?;
    exactly(Field::Zero, 0, last)?;
    exactly(Field::Length, size, length)
}

// A whole mesh.
pub fn check_mesh(mesh: &[u8]) -> Result<(), Wrong>
    ensures { checked_of result ≡ first_wrong (mesh_fields mesh.now) }
{
    let length = mesh.len() as u64;
    if length < 8 {
        return Err(Wrong {
            field: Field::Short,
            due: Some(8),
            found: length,
        });
    }
    let dimension = mesh::layout::dimension(mesh);
    let trees = mesh::layout::trees(mesh);
    let size = mesh::layout::tree_at(trees) as u64;
    let dimension_ok = mesh::layout::dimension_ok(dimension);
    let trees_ok = offsets::table::tree_count_ok(trees as u64);
    one_of(Field::Dimension, dimension_ok, dimension)?;
    one_of(Field::Trees, trees_ok, trees)?;
    exactly(Field::Length, size, length)
}
