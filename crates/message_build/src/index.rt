// The links of a part's trees, whose neighbours are local indices, with global numbers.
ghost use Rattle.std.specs.Prelude.{◌≡◌};
ghost use Rattle.part.specs.Part.{global_number};
ghost use Rattle.part.specs.Means.{row_with, rows_with};
ghost use Rattle.message_build.specs.Means.{Opened};

use part::layout::{ghost_at, tree_at};
use records::index::{GlobalIndex, LocalIndex};

// The global number behind a local index: it stands in the record there. An unused face keeps its mark.
fn global_index(part: &[u8], count: u32, ghosts: u32, local: LocalIndex) -> GlobalIndex
    requires { Opened part.now count ghosts }
    ensures { result.0 ≡ global_number part.now local.0 }
{
    let j = local.0;
    if j == 4294967295 {
        return GlobalIndex(4294967295);
    }
    if j < count {
        return GlobalIndex(records::read::number_of(part, tree_at(local)));
    }
    if j - count < ghosts {
        return GlobalIndex(records::read::number_of(part, ghost_at(count, j - count)));
    }
    GlobalIndex(4294967294)
}

fn global_row(part: &[u8], count: u32, ghosts: u32, row: [u32; 3]) -> [u32; 3]
    requires { Opened part.now count ghosts }
    ensures { result ≡ row_with (global_number part.now) row }
{
    let number = global_index(part, count, ghosts, LocalIndex(row[0]));
    [number.0, row[1], row[2]]
}

// The six links of a record with global numbers. Its callers take it in, and the rows stay in registers.
#[inline(always)]
pub fn global_rows(part: &[u8], count: u32, ghosts: u32, rows: [[u32; 3]; 6]) -> [[u32; 3]; 6]
    requires { Opened part.now count ghosts }
    ensures { result ≡ rows_with (global_number part.now) rows }
{
    [
        global_row(part, count, ghosts, rows[0]),
        global_row(part, count, ghosts, rows[1]),
        global_row(part, count, ghosts, rows[2]),
        global_row(part, count, ghosts, rows[3]),
        global_row(part, count, ghosts, rows[4]),
        global_row(part, count, ghosts, rows[5]),
    ]
}
