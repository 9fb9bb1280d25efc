// The check of two tables.
ghost use Rattle.std.specs.Prelude.{◌≡◌, true, ◌&&◌, eqb};
ghost use Rattle.encoding.specs.Refusal.{first_failed};
ghost use Rattle.encoding.specs.Refusals.{refusal_of};
ghost use Rattle.offsets.specs.Table.{ranks_ok, ranks as ranks_of, valid as is_valid, trees as trees_of};
ghost use Rattle.pattern.specs.Calls.{table_checks};

use encoding::refusal::Refusal;
use offsets::table::{ranks, ranks_ok, trees, valid};

fn both_ranks_ok(old: &[u8], new: &[u8]) -> bool
    ensures { result ≡ (ranks_ok old.now && ranks_ok new.now) }
{
    ranks_ok(old) & ranks_ok(new)
}

fn both_valid(old: &[u8], new: &[u8]) -> bool
    requires { (ranks_ok old.now && ranks_ok new.now) ≡ true }
    ensures { result ≡ (is_valid old.now && is_valid new.now) }
{
    valid(old) & valid(new)
}

// Whether two tables have the same P and the same K.
fn agree(old: &[u8], new: &[u8]) -> bool
    requires { (ranks_ok old.now && ranks_ok new.now) ≡ true }
    ensures { result ≡ (eqb (ranks_of old.now) (ranks_of new.now) && eqb (trees_of old.now) (trees_of new.now)) }
{
    (ranks(old) == ranks(new)) & (trees(old) == trees(new))
}

// Check two tables (2, 3, 4).
pub fn check_tables(old: &[u8], new: &[u8]) -> Result<(), Refusal>
    ensures { refusal_of result ≡ first_failed (table_checks old.now new.now) }
{
    if !both_ranks_ok(old, new) {
        return Err(Refusal::Ranks);
    }
    if !both_valid(old, new) {
        return Err(Refusal::Table);
    }
    if !agree(old, new) {
        return Err(Refusal::Differ);
    }
    Ok(())
}
