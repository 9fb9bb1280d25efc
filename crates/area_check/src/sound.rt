// The soundness of an area.
ghost use Rattle.std.specs.Prelude.{◌≡◌, ◌&&◌, ◌+◌, ◌*◌, ◌≤◌, ◌<◌, leb, length};
ghost use Rattle.std.specs.Bool.{then_some};
ghost use Rattle.encoding.specs.Below.{all_below};
ghost use Rattle.offsets.specs.Limits.{max_trees};
ghost use Rattle.records.specs.Record.{core_size, tree_size};
ghost use Rattle.message.specs.Layout.{after_last};
ghost use Rattle.area.specs.Layout.{heard_words};
ghost use Rattle.area.specs.Area.{area_p, area_count, area_ghosts, bit_sound, tree_slot_sound, filled_bound, area_bound, ghost_slot_sound, area_sound};
ghost use Rattle.area.specs.Means.{Tabled, core_at};
ghost use Rattle.area_check.specs.Means.{word_sound, slot_held, range_sound, range_filled, ghost_held_at};

use area::layout::{ghost_bound, ghost_slots_place, heard_words, slots_place, words_place};
use area::read::{Tables, count, dimension, ghosts, heard, rank, ranks, tables_of, trees};
use records::index::{GlobalIndex, to_local};

// ---- the heard senders

// A bit is set only for a rank of the receive set.
fn bit_sound(area: &[u8], tables: Tables, s: usize) -> bool
    requires { Tabled area.now tables.old.now tables.new.now × (s < 64 * heard_words (area_p area.now)) }
    ensures { result ≡ bit_sound area.now s }
{
    if !heard(area, s) {
        return true;
    }
    if ranks(area) <= s {
        return false;
    }
    pattern::range::sends_some(tables.old, tables.new, s, rank(area))
}

// The bits of word w; most words are zero.
fn word_sound(area: &[u8], tables: Tables, w: usize) -> bool
    requires { Tabled area.now tables.old.now tables.new.now × (w < heard_words (area_p area.now)) }
    ensures { result ≡ word_sound area.now w }
{
    let at = words_place(ranks(area)) + 8 * w;
    if encoding::bytes::read_u64(area, at) == 0 {
        return true;
    }
    for b in 0..64 {
        if !bit_sound(area, tables, 64 * w + b) {
            return false;
        }
    }
    true
}

fn bits_sound(area: &[u8], tables: Tables) -> bool
    requires { Tabled area.now tables.old.now tables.new.now }
    ensures { result ≡ all_below (64 * heard_words (area_p area.now)) (bit_sound area.now) }
{
    for w in 0..heard_words(ranks(area)) {
        if !word_sound(area, tables, w) {
            return false;
        }
    }
    true
}

// ---- the tree slots

// Whether the record at byte `at` is in form and has the number.
fn slot_held(area: &[u8], at: usize, number: GlobalIndex) -> bool
    requires { at + core_size ≤ length area.now }
    ensures { result ≡ slot_held area.now at number.0 }
{
    let k = number.0;
    if records::form::plain(area, at, k) {
        return true;
    }
    records::form::in_form(area, at, k) & (records::read::number_of(area, at) == k)
}

fn slots_held(area: &[u8], at: usize, first: u32, count: u32) -> bool
    requires { (at + tree_size * count ≤ length area.now) × (first + count ≤ max_trees) }
    ensures { result ≡ all_below count (λ j. slot_held area.now (at + tree_size * j) (first + j)) }
{
    for j in 0..count {
        if !slot_held(area, at + 64 * (j as usize), GlobalIndex(first + j)) {
            return false;
        }
    }
    true
}

// How many slots of the trees due from s are filled, where these are sound: held where s is heard, else zero.
fn range_filled(area: &[u8], tables: Tables, s: usize) -> Option<u32>
    requires { Tabled area.now tables.old.now tables.new.now × (s < area_p area.now) }
    ensures { result ≡ then_some (range_sound area.now s) (range_filled area.now s) }
{
    let rank = rank(area);
    let sent = pattern::range::sent(tables.old, tables.new, s, rank);
    let first = sent.first;
    let count = sent.count;
    if count == 0 {
        return Some(0);
    }
    let own = offsets::table::first_tree(tables.new, rank) as u32;
    let tree = to_local(GlobalIndex(first), GlobalIndex(own));
    let i = tree.0;
    let at = slots_place(ranks(area)) + 64 * (i as usize);
    if heard(area, s) {
        return slots_held(area, at, first, count).then_some(count);
    }
    let end = at + 64 * (count as usize);
    encoding::zero::all_zero(&area[at..end]).then_some(0)
}

// Every tree slot is sound, and there are at most F ghosts for each that is filled. Only ranks in the window have trees to send.
fn ranges_sound(area: &[u8], tables: Tables) -> bool
    requires { Tabled area.now tables.old.now tables.new.now }
    ensures { result ≡ (all_below (area_count area.now) (tree_slot_sound area.now) && leb (area_ghosts area.now) (filled_bound area.now)) }
{
    let window = pattern::window::window_of(tables.old, tables.new, rank(area), false);
    let mut filled = 0;
    for s in window.first..window.end {
        let Some(slots) = range_filled(area, tables, s) else {
            return false;
        };
        filled += slots;
    }
    ghosts(area) as u64 <= ghost_bound(dimension(area), filled)
}

// ---- the ghost slots

// Whether core record j from byte `at` on has a larger number than the one before it.
fn after_last(area: &[u8], at: usize, j: u32) -> bool
    requires { at + core_size * j + core_size ≤ length area.now }
    ensures { result ≡ after_last (core_at area.now at) j }
{
    if j == 0 {
        return true;
    }
    let last = at + 40 * ((j - 1) as usize);
    records::read::number_of(area, last) < records::read::number_of(area, last + 40)
}

// Ghost j from byte `at` on: in form, below K, outside the range, after the ghost before it.
fn ghost_held(area: &[u8], at: usize, trees: u32, first: u64, end: u64, j: u32) -> bool
    requires { at + core_size * j + core_size ≤ length area.now }
    ensures { result ≡ ghost_held_at area.now at trees first end j }
{
    let here = at + 40 * (j as usize);
    let number = records::read::number_of(area, here);
    let k = number as u64;
    records::form::in_form(area, here, number)
        & (number < trees)
        & !((first <= k) & (k < end))
        & after_last(area, at, j)
}

fn ghosts_held(area: &[u8], at: usize, trees: u32, first: u64, end: u64, ghosts: u32) -> bool
    requires { at + core_size * ghosts ≤ length area.now }
    ensures { result ≡ all_below ghosts (ghost_held_at area.now at trees first end) }
{
    for j in 0..ghosts {
        if !ghost_held(area, at, trees, first, end, j) {
            return false;
        }
    }
    true
}

// The held ghosts fill the first slots, and the others are zero.
fn ghosts_sound(area: &[u8], tables: Tables) -> bool
    requires { Tabled area.now tables.old.now tables.new.now × (area_ghosts area.now ≤ area_bound area.now) }
    ensures { result ≡ all_below (area_bound area.now) (ghost_slot_sound area.now) }
{
    let ghosts = ghosts(area);
    let count = count(area);
    let bound = ghost_bound(dimension(area), count);
    let rank = rank(area);
    let first = offsets::table::first_tree(tables.new, rank);
    let end = offsets::table::end_tree(tables.new, rank);
    let at = ghost_slots_place(ranks(area), count);
    if !ghosts_held(area, at, trees(area), first, end, ghosts) {
        return false;
    }
    let from = at + 40 * (ghosts as usize);
    let to = at + 40 * (bound as usize);
    encoding::zero::all_zero(&area[from..to])
}

// ---- the area

// The tree slots come last: a close reads them again, and finds what was read last in the cache.
pub fn area_sound(area: &[u8]) -> bool
    ensures { result ≡ area_sound area.now }
{
    if !area::header::header_sound(area) {
        return false;
    }
    let tables = tables_of(area);
    if ghost_bound(dimension(area), count(area)) < ghosts(area) as u64 {
        return false;
    }
    if !(bits_sound(area, tables) & ghosts_sound(area, tables)) {
        return false;
    }
    ranges_sound(area, tables)
}
