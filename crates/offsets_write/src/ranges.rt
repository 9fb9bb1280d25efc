// The table of a partition that is given by a first tree and a count for each rank.
ghost use Rattle.std.specs.Prelude.{◌≡◌, ◌≤◌, length};
ghost use Rattle.encoding.specs.Pieces.{splice};
ghost use Rattle.offsets.specs.Table.{table_length};
ghost use Rattle.offsets_write.specs.Partition.{ranges_fit, table_of};
ghost use Rattle.offsets_write.specs.Calls.{each, partition_ok};
ghost use Rattle.offsets_write.specs.Means.{range_fits, next_end, next_entry};

use encoding::bytes::write_u64;
use offsets::table::tree_count_ok;

// Whether a rank follows the ranks below it, whose trees stop at `end`.
fn range_fits(end: u64, first: u32, count: u32) -> bool
    ensures { result ≡ range_fits end first count }
{
    let f = first as u64;
    (count == 0) | (f == end) | (f + 1 == end)
}

// One past the last tree after a rank.
fn next_end(end: u64, first: u32, count: u32) -> u64
    ensures { result ≡ next_end end first count }
{
    if 0 < count {
        first as u64 + count as u64
    } else {
        end
    }
}

// The entry of a rank: `end`, negative where the rank begins before it.
fn entry_of(end: u64, first: u32, count: u32) -> u64
    ensures { result ≡ next_entry end first count }
{
    let f = first as u64;
    if (0 < count) & (f < end) {
        u64::MAX - end + 1
    } else {
        end
    }
}

// Whether the ranges are a valid partition of a number of trees within its limits.
fn ranges_fit(first: &[u32], count: &[u32]) -> bool
    requires { length count.now ≡ length first.now }
    ensures { result ≡ ranges_fit (each first.now) (each count.now) (length first.now) }
{
    let mut end: u64 = 0;
    for (&f, &n) in first.iter().zip(count) {
        if !range_fits(end, f, n) {
            return false;
        }
        end = next_end(end, f, n);
    }
    tree_count_ok(end)
}

// Whether the lists have an element for each rank, and their ranges fit a table.
pub fn partition_ok(ranks: usize, first: &[u32], count: &[u32]) -> bool
    ensures { result ≡ partition_ok ranks first.now count.now }
{
    if first.len() != ranks || count.len() != ranks {
        return false;
    }
    ranges_fit(first, count)
}

// The table of the ranges, at the start of `out`.
pub fn write(first: &[u32], count: &[u32], out: &mut [u8])
    requires { (length count.now ≡ length first.now) × (table_length (length first.now) ≤ length out.old) }
    ensures { out.new ≡ splice out.old 0 (table_of (each first.now) (each count.now) (length first.now)) }
{
    let mut end: u64 = 0;
    for p in 0..first.len() {
        let f = first[p];
        let n = count[p];
        write_u64(&mut *out, 8 * p, entry_of(end, f, n));
        end = next_end(end, f, n);
    }
    write_u64(&mut *out, 8 * first.len(), end);
}
