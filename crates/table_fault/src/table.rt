// What is wrong with an entry of a table, and the first one.
ghost use Rattle.std.specs.Prelude.{◌≡◌, true, ◌+◌, ◌≤◌};
ghost use Rattle.offsets.specs.Table.{ranks_ok, ranks as ranks_of, trees as trees_of};
ghost use Rattle.faults.specs.Answer.{first_fault};
ghost use Rattle.faults.specs.Kinds.{fault_of, kind_of};
ghost use Rattle.table_fault.specs.Table.{entry_kind, entry_wrong};
ghost use Rattle.table_fault.specs.Means.{count_kind};

use encoding::refusal::Refusal;
use faults::answer::{Kind, Place, Wrong};
use offsets::table::{entry, first_of, magnitude, negative, tree_count_ok};

// The kinds of a count: of a rank with the entry v, up to, but without, tree `end`.
fn check_count(v: u64, end: u64) -> Result<(), Kind>
    ensures { kind_of result ≡ count_kind v end }
{
    let first = first_of(v);
    if end < first {
        return Err(Kind::Count);
    }
    if negative(v) & (end <= first) {
        return Err(Kind::Empty);
    }
    Ok(())
}

fn check_entry(t: &[u8], ranks: u32, trees: u64, p: u32) -> Result<(), Kind>
    requires { (ranks_ok t.now ≡ true) × (ranks ≡ ranks_of t.now) × (trees ≡ trees_of t.now) × (p ≤ ranks) }
    ensures { kind_of result ≡ entry_kind t.now p }
{
    let v = entry(t, p as usize);
    if (p == 0) & (v != 0) {
        return Err(Kind::First);
    }
    if (p == ranks) & !tree_count_ok(trees) {
        return Err(Kind::Trees);
    }
    if trees < magnitude(v) {
        return Err(Kind::Entry);
    }
    if ranks <= p {
        return Ok(());
    }
    check_count(v, magnitude(entry(t, (p as usize) + 1)))
}

// The first entry that is wrong.
pub fn first_wrong(t: &[u8]) -> Option<Place>
    requires { ranks_ok t.now ≡ true }
    ensures { fault_of result ≡ first_fault 3 (ranks_of t.now + 1) (entry_wrong t.now) }
{
    let ranks = offsets::table::ranks(t) as u32;
    let trees = entry(t, ranks as usize);
    for p in 0..ranks + 1 {
        if let Err(kind) = check_entry(t, ranks, trees, p) {
            return Some(Place {
                fault: Refusal::Table,
                at: p,
                wrong: Wrong { kind, face: 0 },
            });
        }
    }
    None
}
