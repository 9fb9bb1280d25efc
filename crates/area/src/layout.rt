// Where the zones of an area begin, and how long it is.
ghost use Rattle.std.specs.Prelude.{◌≡◌, ◌+◌, ◌*◌, ◌≤◌};
ghost use Rattle.offsets.specs.Limits.{max_ranks};
ghost use Rattle.offsets.specs.Table.{table_length};
ghost use Rattle.records.specs.Record.{tree_size};
ghost use Rattle.records.specs.Shape.{faces_in};
ghost use Rattle.area.specs.Layout.{area_header, heard_words, ghost_bound, new_place, words_place, slots_place, ghost_slots_place, area_size};
ghost use Rattle.area.specs.Means.{tables_end, words_end};

// Up to so many ranks an area has 16 words.
const FEW_RANKS: usize = 1024;

// How many words of 64 bits hold the heard senders.
pub fn heard_words(ranks: usize) -> usize
    requires { ranks ≤ max_ranks }
    ensures { (result ≡ heard_words ranks) × (result ≤ max_ranks) }
{
    if ranks <= FEW_RANKS {
        return 16;
    }
    256
}

pub fn new_place(ranks: usize) -> usize
    requires { ranks ≤ max_ranks }
    ensures { (result ≡ new_place ranks) × (result ≡ area_header + table_length ranks) }
{
    32 + 8 * (ranks + 1)
}

pub fn words_place(ranks: usize) -> usize
    requires { ranks ≤ max_ranks }
    ensures { (result ≡ words_place ranks) × (result ≡ tables_end ranks) }
{
    new_place(ranks) + 8 * (ranks + 1)
}

pub fn slots_place(ranks: usize) -> usize
    requires { ranks ≤ max_ranks }
    ensures { (result ≡ slots_place ranks) × ((result ≡ words_end ranks) × (heard_words ranks ≤ max_ranks)) }
{
    words_place(ranks) + 8 * heard_words(ranks)
}

pub fn ghost_slots_place(ranks: usize, count: u32) -> usize
    requires { ranks ≤ max_ranks }
    ensures { (result ≡ ghost_slots_place ranks count) × ((result ≡ words_end ranks + tree_size * count) × (heard_words ranks ≤ max_ranks)) }
{
    slots_place(ranks) + 64 * (count as usize)
}

// How many ghost slots there are: F for each tree.
pub fn ghost_bound(dimension: u32, count: u32) -> u64
    ensures { (result ≡ ghost_bound (faces_in dimension) count) × (result ≤ 6 * count) }
{
    (records::shape::faces_in(dimension) as u64) * (count as u64)
}

pub fn area_size(dimension: u32, ranks: usize, count: u32) -> usize
    requires { ranks ≤ max_ranks }
    ensures { result ≡ area_size dimension ranks count }
{
    ghost_slots_place(ranks, count) + 40 * (ghost_bound(dimension, count) as usize)
}
