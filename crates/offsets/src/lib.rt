// Offset tables: which ranks hold which trees.
#![tactic(auto)]

ghost use Rattle.std.specs.Prelude.{◌≡◌};
ghost use Rattle.encoding.specs.Refusals.{refusal_of};
ghost use Rattle.offsets.specs.Answers.{range_of};
ghost use Rattle.offsets.specs.Calls.{table_refusal, table_range};

use encoding::refusal::Refusal;

pub mod table;

// A rank's trees: the first and how many.
#[derive(Clone, Copy, Debug, PartialEq, Eq)]
pub struct Trees {
    pub first: u32,
    pub count: u32,
}

// The same as C gets it. When refused, `refusal` is the number of the first check that failed and the rest is 0.
#[repr(C)]
#[derive(Clone, Copy)]
pub struct Range {
    pub refusal: u32,
    pub first: u32,
    pub count: u32,
}

impl From<Result<Trees, Refusal>> for Range {
    ghost from_gives = { λ answer range. range ≡ range_of answer };

    fn from(answer: Result<Trees, Refusal>) -> Range {
        match answer {
            Ok(trees) => Range {
                refusal: 0,
                first: trees.first,
                count: trees.count,
            },
            Err(refusal) => Range {
                refusal: refusal.number(),
                first: 0,
                count: 0,
            },
        }
    }
}

// Check a table (2, 3).
pub fn check_table(table: &[u8]) -> Result<(), Refusal>
    ensures { refusal_of result ≡ table_refusal table.now }
{
    if !table::ranks_ok(table) {
        return Err(Refusal::Ranks);
    }
    if !table::valid(table) {
        return Err(Refusal::Table);
    }
    Ok(())
}

// The trees of a rank (2, 3, 5).
pub fn table_range(table: &[u8], rank: u32) -> Result<Trees, Refusal>
    ensures { range_of result ≡ table_range table.now rank }
{
    check_table(table)?;
    let p = rank as usize;
    if table::ranks(table) <= p {
        return Err(Refusal::Index);
    }
    let first = table::first_tree(table, p);
    let end = table::end_tree(table, p);
    Ok(Trees {
        first: first as u32,
        count: (end - first) as u32,
    })
}
