// The entries of a table of more or fewer ranks.
ghost use Rattle.std.specs.Prelude.{◌≡◌, true, ◌≤◌, length};
ghost use Rattle.encoding.specs.Pieces.{splice};
ghost use Rattle.offsets.specs.Table.{table_length, ranks_ok};
ghost use Rattle.restart.specs.Restart.{padded_table};

// Writes the table of n ranks: the last entry of `table` stands for all behind it.
pub fn write_entries(table: &[u8], n: usize, out: &mut [u8])
    requires { (ranks_ok table.now ≡ true) × (table_length n ≤ length out.old) }
    ensures { out.new ≡ splice out.old 0 (padded_table table.now n) }
{
    let last = offsets::table::ranks(table);
    for p in 0..n + 1 {
        let entry = offsets::table::entry(table, p.min(last));
        encoding::bytes::write_u64(&mut *out, 8 * p, entry);
    }
}
