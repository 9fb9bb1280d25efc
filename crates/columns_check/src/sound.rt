// Whether a column file is that of a sound part. Face by face, and for each face record by record: so few columns are read at a time that their bytes stay in cache. A link is looked at from one end, as in the check of a part: one that leads up, to a higher tree, from a ghost to a tree or to a higher ghost, is only counted.
ghost use Rattle.std.specs.Prelude.{◌≡◌, true, cond, ◌+◌, ◌*◌, ◌≤◌, ◌<◌, length};
ghost use Rattle.encoding.specs.Below.{all_below, any_below, count_below};
ghost use Rattle.records.specs.Record.{core_size};
ghost use Rattle.mesh.specs.Means.{link_by_dimension, packed, SeenAs, SortedAs};
ghost use Rattle.part.specs.Layout.{part_size};
ghost use Rattle.part.specs.Means.{neighbour_in, RankKnown};
ghost use Rattle.positions.specs.Means.{some_has, Added, Blank, Indexed as IsIndexed};
ghost use Rattle.ghost_links.specs.Means.{ghost_answered};
ghost use Rattle.part_check.specs.Means.{tree_numbered, ghost_numbered};
ghost use Rattle.columns_read.specs.Columns.{spaced, columns_sound};
ghost use Rattle.columns_read.specs.Means.{tree_side_up, tree_side_down};
ghost use Rattle.columns_read.specs.MeansFiles.{Laid, tree_of, ghost_of, head_of, side_of};
ghost use Rattle.columns_check.specs.Means.{from, columns_found, ghost_rows, TargetAs};
ghost use Rattle.columns_check.specs.MeansFiles.{Numbered, HasIndex, ghost_head_of, ghost_side_of, low_of, up_of, down_of, listed_of, linked_of, face_of, ups_of, downs_of, links_of};

use columns_read::alike::{heads_on, sides_on};
use columns_read::file::Columns;
use columns_read::read::{byte, face_ok, head_ok, link_ok, orientation_ok, word};
use mesh::sound::{Counts, Links, pushed};
use part::layout::{dimension, first_tree, ghost_count, tree_count, trees};
use part::range::{in_range, within};
use records::index::{GlobalIndex, LocalIndex, to_local};
use records::shape::face_count;

// ---- trees

// Whether the local index of the tree's number is its own.
fn tree_numbered(columns: &Columns, tree: LocalIndex) -> bool
    requires { 32 + tree.0 + columns.now.count * 39 < length columns.now.file.now }
    ensures { result ≡ tree_numbered columns.now.first (tree_of columns.now) tree.0 }
{
    let i = tree.0;
    let first = columns.first;
    let number = word(columns.file, 32 + (i as usize), columns.count, 0);
    if number < first {
        return false;
    }
    let local = to_local(GlobalIndex(number), GlobalIndex(first));
    local.0 == i
}

// The trees, their faces apart.
fn tree_heads(columns: &Columns) -> bool
    requires { Laid columns.now }
    ensures { result ≡ all_below columns.now.count (head_of columns.now) }
{
    let count = columns.count;
    let mut i = 0;
    // a `while`: trees like one another are passed over together
    while i < count {
        if !(tree_numbered(columns, LocalIndex(i))
            & head_ok(columns.file, 32 + (i as usize), count, columns.dimension))
        {
            return false;
        }
        i += heads_on(columns, i) + 1;
    }
    true
}

// Where the record with a local index stands, and what its link back leads to: a tree's to the local index, a ghost's to the global number.
#[derive(Clone, Copy)]
pub struct Target {
    pub back: u32,
    pub to: usize,
    pub gap: u32,
}

fn target_of(columns: &Columns, i: u32, j: u32) -> Option<Target>
    requires { (length columns.now.file.now ≡ part_size columns.now.count columns.now.ghosts) × (i < columns.now.count) }
    ensures { TargetAs columns.now.file.now columns.now.count columns.now.ghosts i j result }
{
    let count = columns.count;
    let ghosts = columns.ghosts;
    if j < count {
        return Some(Target {
            back: i,
            to: 32 + (j as usize),
            gap: count,
        });
    }
    if j - count < ghosts {
        return Some(Target {
            back: word(columns.file, 32 + (i as usize), count, 0),
            to: 32 + 64 * (count as usize) + ((j - count) as usize),
            gap: ghosts,
        });
    }
    None
}

// A link to a higher tree isn't followed. The rule of a link is called once: so it costs no call.
fn tree_side(columns: &Columns, i: u32, face: u32) -> bool
    requires { Laid columns.now × (i < columns.now.count) × (face < 6) }
    ensures { result ≡ side_of columns.now face i }
{
    let file = columns.file;
    let count = columns.count;
    let at = 32 + (i as usize);
    if !face_ok(file, at, count, i, face) {
        return false;
    }
    if face_count(byte(file, at, count, 4)) <= face {
        return true;
    }
    let j = word(file, at, count, 8 + 4 * face);
    if (i < j) & (j < count) {
        return true;
    }
    let Some(there) = target_of(columns, i, j) else {
        return false;
    };
    link_ok(
        file,
        columns.dimension,
        there.back,
        at,
        count,
        face,
        there.to,
        there.gap,
    )
}

// Whether a tree has the face and its link leads to a higher tree.
fn leads_up(columns: &Columns, i: u32, face: u32) -> bool
    requires { (32 + i + columns.now.count * 39 < length columns.now.file.now) × (face < 6) }
    ensures { result ≡ tree_side_up columns.now.count (tree_of columns.now) face i }
{
    let count = columns.count;
    let at = 32 + (i as usize);
    let j = word(columns.file, at, count, 8 + 4 * face);
    (face < face_count(byte(columns.file, at, count, 4))) & ((i < j) & (j < count))
}

// Whether it leads to a lower tree or to a ghost.
fn leads_down(columns: &Columns, i: u32, face: u32) -> bool
    requires { (32 + i + columns.now.count * 39 < length columns.now.file.now) × (face < 6) }
    ensures { result ≡ tree_side_down columns.now.count (tree_of columns.now) face i }
{
    let count = columns.count;
    let at = 32 + (i as usize);
    let j = word(columns.file, at, count, 8 + 4 * face);
    (face < face_count(byte(columns.file, at, count, 4))) & (!((i < j) & (j < count)) & !(j == i))
}

// So many, where they count.
fn times(counts: bool, many: u32) -> u64
    ensures { (result ≡ cond counts many 0) × (result ≤ many) }
{
    if counts { many as u64 } else { 0 }
}

fn tree_sides(columns: &Columns, face: u32) -> Option<Counts>
    requires { Laid columns.now × (face < 6) }
    ensures { SeenAs (all_below columns.now.count (side_of columns.now face)) (count_below columns.now.count (tree_side_up columns.now.count (tree_of columns.now) face)) (count_below columns.now.count (tree_side_down columns.now.count (tree_of columns.now) face)) 25769803776 result }
{
    let count = columns.count;
    let mut i = 0;
    let mut ups = 0;
    let mut downs = 0;
    // a `while`: trees like one another are passed over together
    while i < count {
        if !tree_side(columns, i, face) {
            return None;
        }
        let many = sides_on(columns, i, face) + 1;
        ups += times(leads_up(columns, i, face), many);
        downs += times(leads_down(columns, i, face), many);
        i += many;
    }
    Some(Counts { ups, downs })
}

// ---- ghosts

// Whether a ghost has a number below K, outside the range, and above that of the ghost before it.
fn ghost_numbered(columns: &Columns, j: u32) -> bool
    requires { Laid columns.now × (j < columns.now.ghosts) }
    ensures { result ≡ ghost_numbered columns.now.first columns.now.count (ghost_of columns.now) columns.now.trees j }
{
    let file = columns.file;
    let first = columns.first;
    let base = 32 + 64 * (columns.count as usize);
    let number = word(file, base + (j as usize), columns.ghosts, 0);
    if !((number < columns.trees) & !in_range(first, first + columns.count, GlobalIndex(number))) {
        return false;
    }
    if j == 0 {
        return true;
    }
    word(file, base + ((j - 1) as usize), columns.ghosts, 0) < number
}

fn ghost_numbers(columns: &Columns) -> bool
    requires { Laid columns.now }
    ensures { result ≡ all_below columns.now.ghosts (ghost_numbered columns.now.first columns.now.count (ghost_of columns.now) columns.now.trees) }
{
    for j in 0..columns.ghosts {
        if !ghost_numbered(columns, j) {
            return false;
        }
    }
    true
}

// Whether the record has a face neighbour in the range. The loop has no exit: with random links it would be guessed wrong for every ghost.
fn beside(file: &[u8], at: usize, step: u32, faces: u32, first: u32, end: u32) -> bool
    requires { (at + step * 39 < length file.now) × (faces ≤ 6) }
    ensures { result ≡ any_below faces (neighbour_in first end (spaced file.now at step core_size)) }
{
    let mut met = false;
    for face in 0..faces {
        met |= in_range(first, end, GlobalIndex(word(file, at, step, 8 + 4 * face)));
    }
    met
}

// The ghosts, their numbers and their faces apart.
fn ghost_heads(columns: &Columns) -> bool
    requires { Laid columns.now }
    ensures { result ≡ all_below columns.now.ghosts (ghost_head_of columns.now) }
{
    let file = columns.file;
    let first = columns.first;
    let ghosts = columns.ghosts;
    let base = 32 + 64 * (columns.count as usize);
    for j in 0..ghosts {
        let at = base + (j as usize);
        let faces = face_count(byte(file, at, ghosts, 4));
        if !(head_ok(file, at, ghosts, columns.dimension)
            & beside(file, at, ghosts, faces, first, first + columns.count))
        {
            return false;
        }
    }
    true
}

// Makes the ghosts' numbers members.
fn mark_ghosts(columns: &Columns, marks: &mut [u64])
    requires { Numbered columns.now × (columns.now.trees ≤ 64 * length marks.old) }
    ensures { Added marks.old (some_has (ghost_rows columns.now.file.now columns.now.count columns.now.ghosts) 0 columns.now.ghosts) marks.new }
{
    let base = 32 + 64 * (columns.count as usize);
    for j in 0..columns.ghosts {
        let k = word(columns.file, base + (j as usize), columns.ghosts, 0);
        bits::set::add_member(&mut *marks, k);
    }
}

// Makes the index of the ghosts' positions by their numbers.
fn index_ghosts(columns: &Columns, marks: &mut [u64], behind: &mut [u32])
    requires { Numbered columns.now × (columns.now.trees ≤ 64 * length marks.old) × Blank marks.old behind.old }
    ensures { IsIndexed (ghost_rows columns.now.file.now columns.now.count columns.now.ghosts) 0 columns.now.ghosts marks.new behind.new }
{
    mark_ghosts(columns, &mut *marks);
    let words = columns.trees.div_ceil(64) as usize;
    positions::index::count_behind(&*marks, words, &mut *behind);
}

// A file with the index of its ghosts by their numbers.
#[derive(Clone, Copy)]
pub struct Indexed<'a> {
    pub columns: Columns<'a>,
    pub marks: &'a [u64],
    pub behind: &'a [u32],
}

// What a ghost's face shows without its neighbour.
fn ghost_low(columns: &Columns, j: u32, face: u32) -> bool
    requires { (32 + 64 * columns.now.count + j + columns.now.ghosts * 39 < length columns.now.file.now) × (face < 6) }
    ensures { result ≡ low_of columns.now face j }
{
    let file = columns.file;
    let ghosts = columns.ghosts;
    let at = 32 + 64 * (columns.count as usize) + (j as usize);
    let k = word(file, at, ghosts, 8 + 4 * face);
    if face_count(byte(file, at, ghosts, 4)) <= face {
        return (k == records::form::UNUSED) & (byte(file, at, ghosts, 32 + face) == 0);
    }
    (k < columns.trees) & orientation_ok(file, at, ghosts, face)
}

// Where a ghost's link leads.
#[derive(Clone, Copy)]
pub struct Way {
    pub listed: bool,
    pub up: bool,
    pub down: bool,
}

fn ghost_way(indexed: &Indexed, j: u32, face: u32) -> Way
    requires { HasIndex indexed.now × (j < indexed.now.columns.ghosts) × (face < 6) × (low_of indexed.now.columns face j ≡ true) }
    ensures { (result.listed ≡ listed_of indexed.now.columns face j) × (result.up ≡ up_of indexed.now.columns face j) × (result.down ≡ down_of indexed.now.columns face j) }
{
    let columns = indexed.columns;
    let file = columns.file;
    let first = columns.first;
    let count = columns.count;
    let ghosts = columns.ghosts;
    let at = 32 + 64 * (count as usize) + (j as usize);
    if face_count(byte(file, at, ghosts, 4)) <= face {
        return Way {
            listed: false,
            up: false,
            down: false,
        };
    }
    let k = word(file, at, ghosts, 8 + 4 * face);
    let own = word(file, at, ghosts, 0);
    let inside = within(first, first + count, k);
    let held = bits::set::in_set(indexed.marks, k);
    let low = k <= own;
    Way {
        listed: held & low,
        up: inside | (held & !low),
        down: held & (k < own),
    }
}

// The links of a face of up to six ghosts, sorted: those to follow as digits to base 8, and how many lead up and down. No branch hangs on where a link leads: with random links it would be guessed wrong every second time.
fn sorted(indexed: &Indexed, start: u32, many: u32, face: u32) -> Option<Links>
    requires { HasIndex indexed.now × (start + many ≤ indexed.now.columns.ghosts) × (many ≤ 6) × (face < 6) }
    ensures { SortedAs (all_below many (from (low_of indexed.now.columns face) start)) (count_below many (from (up_of indexed.now.columns face) start)) (count_below many (from (down_of indexed.now.columns face) start)) (packed many (from (listed_of indexed.now.columns face) start)) result }
{
    let mut list = 0;
    let mut ups = 0;
    let mut downs = 0;
    for m in 0..many {
        if !ghost_low(&indexed.columns, start + m, face) {
            return None;
        }
        let way = ghost_way(indexed, start + m, face);
        list = pushed(list, m, way.listed);
        ups += u64::from(way.up);
        downs += u64::from(way.down);
    }
    Some(Links {
        list,
        counts: Counts { ups, downs },
    })
}

// A link to a ghost that isn't higher.
fn ghost_linked(indexed: &Indexed, j: u32, face: u32) -> bool
    requires { HasIndex indexed.now × (j < indexed.now.columns.ghosts) × (face < 6) × (listed_of indexed.now.columns face j ≡ true) }
    ensures { result ≡ ghost_answered (link_by_dimension indexed.now.columns.dimension) indexed.now.columns.ghosts (ghost_of indexed.now.columns) j face }
{
    let file = indexed.columns.file;
    let ghosts = indexed.columns.ghosts;
    let base = 32 + 64 * (indexed.columns.count as usize);
    let at = base + (j as usize);
    let number = word(file, at, ghosts, 0);
    if !face_ok(file, at, ghosts, number, face) {
        return false;
    }
    let k = word(file, at, ghosts, 8 + 4 * face);
    let position = positions::index::find(indexed.marks, indexed.behind, ghosts, GlobalIndex(k));
    link_ok(
        file,
        indexed.columns.dimension,
        number,
        at,
        ghosts,
        face,
        base + (position as usize),
        ghosts,
    )
}

// Those of a list, the last first.
fn listed_linked(indexed: &Indexed, start: u32, many: u32, face: u32, list: u32) -> bool
    requires { HasIndex indexed.now × (start + many ≤ indexed.now.columns.ghosts) × (many ≤ 6) × (face < 6) × (list ≡ packed many (from (listed_of indexed.now.columns face) start)) }
    ensures { result ≡ all_below many (from (linked_of indexed.now.columns face) start) }
{
    let mut left = list;
    // the digits of the list, the last first: no index is counted
    while 0 < left {
        if !ghost_linked(indexed, start + (left % 8 - 1), face) {
            return false;
        }
        left = left / 8;
    }
    true
}

// Six ghosts are looked at together, or those that are left.
fn ghost_sides(indexed: &Indexed, face: u32) -> Option<Counts>
    requires { HasIndex indexed.now × (face < 6) }
    ensures { SeenAs (all_below indexed.now.columns.ghosts (ghost_side_of indexed.now.columns face)) (count_below indexed.now.columns.ghosts (up_of indexed.now.columns face)) (count_below indexed.now.columns.ghosts (down_of indexed.now.columns face)) 25769803776 result }
{
    let ghosts = indexed.columns.ghosts;
    let mut ups = 0;
    let mut downs = 0;
    for j in (0..ghosts).step_by(6) {
        let many = (ghosts - j).min(6);
        let links = sorted(indexed, j, many, face)?;
        if !listed_linked(indexed, j, many, face, links.list) {
            return None;
        }
        ups += links.counts.ups;
        downs += links.counts.downs;
    }
    Some(Counts { ups, downs })
}

// ---- the whole

// A face of all records.
fn face_sound(indexed: &Indexed, face: u32) -> Option<Counts>
    requires { HasIndex indexed.now × (face < 6) }
    ensures { SeenAs (face_of indexed.now.columns face) (ups_of indexed.now.columns face) (downs_of indexed.now.columns face) 51539607552 result }
{
    let own = tree_sides(&indexed.columns, face)?;
    let others = ghost_sides(indexed, face)?;
    Some(Counts {
        ups: own.ups + others.ups,
        downs: own.downs + others.downs,
    })
}

// Every face, and as many links lead up as down.
fn links_sound(indexed: &Indexed) -> bool
    requires { HasIndex indexed.now }
    ensures { result ≡ links_of indexed.now.columns }
{
    let mut ups = 0;
    let mut downs = 0;
    for face in 0..6 {
        let Some(seen) = face_sound(indexed, face) else {
            return false;
        };
        ups += seen.ups;
        downs += seen.downs;
    }
    ups == downs
}

// The same, by an index of so many words.
fn links_with<const WORDS: usize>(columns: &Columns) -> bool
    requires { Numbered columns.now × (columns.now.trees ≤ 64 * WORDS) × (WORDS ≤ 1048576) }
    ensures { result ≡ links_of columns.now }
{
    let mut marks = [0u64; WORDS];
    let mut behind = [0u32; WORDS];
    index_ghosts(columns, &mut marks, &mut behind);
    links_sound(&Indexed {
        columns: *columns,
        marks: &marks,
        behind: &behind,
    })
}

// The same. To clear the words for all trees takes longer than to check a small part: up to 65,536 trees have fewer words.
fn all_links_sound(columns: &Columns) -> bool
    requires { Numbered columns.now }
    ensures { result ≡ links_of columns.now }
{
    if columns.trees <= 65536 {
        return links_with::<1024>(columns);
    }
    links_with::<16384>(columns)
}

fn records_sound(columns: &Columns) -> bool
    requires { Laid columns.now }
    ensures { result ≡ columns_found (link_by_dimension columns.now.dimension) columns.now.first columns.now.count columns.now.ghosts (tree_of columns.now) (ghost_of columns.now) columns.now.dimension columns.now.trees }
{
    if !(ghost_numbers(columns) & tree_heads(columns)) {
        return false;
    }
    ghost_heads(columns) & all_links_sound(columns)
}

// Whether the file is that of a sound part for a valid table and a rank of it.
pub fn columns_sound(file: &[u8], table: &[u8], rank: u32) -> bool
    requires { RankKnown table.now rank }
    ensures { result ≡ columns_sound file.now table.now rank }
{
    if !part_check::sound::header_sound(file, table, rank) {
        return false;
    }
    records_sound(&Columns {
        file,
        first: first_tree(file).0,
        count: tree_count(file),
        ghosts: ghost_count(file),
        dimension: dimension(file),
        trees: trees(file),
    })
}
