// Reading a table that is known to be one.
ghost use Rattle.std.specs.Prelude.{◌≡◌, true, ◌+◌, ◌*◌, ◌≤◌, ◌<◌, length};
ghost use Rattle.encoding.specs.Below.{all_below};
ghost use Rattle.offsets.specs.Limits.{max_ranks, rank_count_ok, tree_count_ok};
ghost use Rattle.offsets.specs.Table.{table_length, ranks_ok, ranks as ranks_of, entry as entry_of, negative as is_negative, magnitude as magnitude_of, first_of, valid as is_valid, first_tree, end_tree, trees as trees_of, holds as is_held};
ghost use Rattle.offsets.specs.Means.{entry_ok, entry_ok_at};

pub const MAX_RANKS: usize = 16384;

pub const MAX_TREES: u64 = 1048576;

pub fn rank_count_ok(ranks: usize) -> bool
    ensures { result ≡ rank_count_ok ranks }
{
    (1 <= ranks) & (ranks <= MAX_RANKS)
}

pub fn tree_count_ok(trees: u64) -> bool
    ensures { result ≡ tree_count_ok trees }
{
    (1 <= trees) & (trees <= MAX_TREES)
}

// Whether the length is that of a table and P is within its limits.
pub fn ranks_ok(t: &[u8]) -> bool
    ensures { result ≡ ranks_ok t.now }
{
    let n = t.len();
    if n < 16 {
        return false;
    }
    let p = n / 8 - 1;
    (n == 8 * (p + 1)) & rank_count_ok(p)
}

pub fn ranks(t: &[u8]) -> usize
    requires { ranks_ok t.now ≡ true }
    ensures { (result ≡ ranks_of t.now) × ((1 ≤ result) × (result ≤ max_ranks) × (length t.now ≡ table_length result)) }
{
    t.len() / 8 - 1
}

// O[p] as its 64 bits.
pub fn entry(t: &[u8], p: usize) -> u64
    requires { table_length p ≤ length t.now }
    ensures { result ≡ entry_of t.now p }
{
    encoding::bytes::read_u64(t, 8 * p)
}

pub fn negative(v: u64) -> bool
    ensures { result ≡ is_negative v }
{
    9223372036854775808 <= v
}

pub fn magnitude(v: u64) -> u64
    ensures { result ≡ magnitude_of v }
{
    if negative(v) {
        return (18446744073709551615 - v) + 1;
    }
    v
}

// The first tree that an entry tells.
pub fn first_of(v: u64) -> u64
    ensures { result ≡ first_of v }
{
    if negative(v) {
        return 18446744073709551615 - v;
    }
    v
}

fn entry_ok(trees: u64, v: u64, next: u64) -> bool
    ensures { result ≡ entry_ok trees v next }
{
    if trees < magnitude(v) {
        return false;
    }
    if negative(v) {
        return first_of(v) < magnitude(next);
    }
    first_of(v) <= magnitude(next)
}

fn entries_ok(t: &[u8], ranks: usize, trees: u64) -> bool
    requires { table_length ranks ≤ length t.now }
    ensures { result ≡ all_below ranks (entry_ok_at t.now trees) }
{
    for p in 0..ranks {
        if !entry_ok(trees, entry(t, p), entry(t, p + 1)) {
            return false;
        }
    }
    true
}

pub fn valid(t: &[u8]) -> bool
    requires { ranks_ok t.now ≡ true }
    ensures { result ≡ is_valid t.now }
{
    let p = ranks(t);
    let trees = entry(t, p);
    if entry(t, 0) != 0 {
        return false;
    }
    if !tree_count_ok(trees) {
        return false;
    }
    entries_ok(t, p, trees)
}

pub fn first_tree(t: &[u8], p: usize) -> u64
    requires { table_length p ≤ length t.now }
    ensures { result ≡ first_tree t.now p }
{
    first_of(entry(t, p))
}

// One past the last tree of p.
pub fn end_tree(t: &[u8], p: usize) -> u64
    requires { table_length (p + 1) ≤ length t.now }
    ensures { result ≡ end_tree t.now p }
{
    magnitude(entry(t, p + 1))
}

// K.
pub fn trees(t: &[u8]) -> u64
    requires { ranks_ok t.now ≡ true }
    ensures { result ≡ trees_of t.now }
{
    entry(t, ranks(t))
}

// Whether tree k is in f(p).
pub fn holds(t: &[u8], p: usize, k: u64) -> bool
    requires { table_length (p + 1) ≤ length t.now }
    ensures { result ≡ is_held t.now p k }
{
    (first_tree(t, p) <= k) & (k < end_tree(t, p))
}
