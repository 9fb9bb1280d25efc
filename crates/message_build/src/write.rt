// Writing a message: the header, the trees, the ghosts.
ghost use Rattle.std.specs.Prelude.{◌≡◌, ◌++◌, ◌*◌, ◌≤◌, length};
ghost use Rattle.encoding.specs.Pieces.{piece, splice};
ghost use Rattle.encoding.specs.Refusals.{length_of};
ghost use Rattle.records.specs.Record.{core_size, tree_size};
ghost use Rattle.part.specs.Cut.{renamed};
ghost use Rattle.part.specs.Layout.{ghost_place};
ghost use Rattle.part.specs.Means.{Ascending, smaller};
ghost use Rattle.part.specs.Part.{global_number, part_core, part_k};
ghost use Rattle.bits.specs.Bits.{in_set};
ghost use Rattle.message.specs.Build.{part_record};
ghost use Rattle.message.specs.Layout.{message_header};
ghost use Rattle.message_ghosts.specs.Means.{mark_words as most_words, Room};
ghost use Rattle.message_ghosts.specs.MeansSent.{Sends};
ghost use Rattle.positions.specs.Means.{cores_below};
ghost use Rattle.message_build.specs.Means.{built_range, RecordRoom, global_links, records_from, TreesRoom, Past, GhostRoom, GhostsRoom, RecordsRoom};
ghost use Rattle.message_build.specs.MeansSent.{RoomFor, message_of};

use crate::index::global_rows;
use crate::length::{going, mark_words};
use encoding::refusal::Refusal;
use message_ghosts::Sending;
use part::layout::{ghost_at, tree_at};
use part::range::{find_ghost, in_range};
use records::index::{GlobalIndex, to_local};

// Puts the links of the part's record at byte `from` into the record at byte `to`, with global numbers.
fn put_links(
    part: &[u8],
    count: u32,
    ghosts: u32,
    faces: u32,
    from: usize,
    out: &mut [u8],
    to: usize,
)
    requires { RecordRoom part.now out.old count ghosts faces core_size from to }
    ensures { out.new ≡ splice out.old to (global_links part.now faces from (piece out.old to core_size)) }
{
    let rows = records::links::rows_of(part, from, faces);
    let global = global_rows(part, count, ghosts, rows);
    records::links::put_rows(&mut *out, to, global, faces);
}

// Writes the tree record at byte `from` of the part to byte `to`, with its data and global numbers. All links are read before the copy; `write_core` copies first.
fn write_tree(
    part: &[u8],
    count: u32,
    ghosts: u32,
    faces: u32,
    from: usize,
    out: &mut [u8],
    to: usize,
)
    requires { RecordRoom part.now out.old count ghosts faces tree_size from to }
    ensures { out.new ≡ splice out.old to (renamed (global_number part.now) faces (piece part.now from tree_size)) }
{
    let rows = records::links::rows_of(part, from, faces);
    let global = global_rows(part, count, ghosts, rows);
    encoding::record::copy64(part, from, &mut *out, to);
    records::links::put_rows(&mut *out, to, global, faces);
}

// Writes its core alone.
fn write_core(
    part: &[u8],
    count: u32,
    ghosts: u32,
    faces: u32,
    from: usize,
    out: &mut [u8],
    to: usize,
)
    requires { RecordRoom part.now out.old count ghosts faces core_size from to }
    ensures { out.new ≡ splice out.old to (renamed (global_number part.now) faces (piece part.now from core_size)) }
{
    encoding::record::copy40(part, from, &mut *out, to);
    put_links(part, count, ghosts, faces, from, &mut *out, to);
}

// Writes n trees from `low` on behind the header. `first` is the part's first tree.
fn write_trees(
    part: &[u8],
    count: u32,
    ghosts: u32,
    faces: u32,
    first: u32,
    low: u32,
    n: u32,
    out: &mut [u8],
)
    requires { TreesRoom part.now out.old count ghosts faces first low n }
    ensures { out.new ≡ splice out.old message_header (records_from (part_record part.now) low n) }
{
    let end = low + n;
    let mut to = 32;
    for k in low..end {
        let tree = to_local(GlobalIndex(k), GlobalIndex(first));
        write_tree(part, count, ghosts, faces, tree_at(tree), &mut *out, to);
        to += 64;
    }
}

// The position of the number among `count` core records that ascend from byte `at`, of which those before `from` are smaller: the next few are asked in turn, the rest is searched by halves.
fn find_from(part: &[u8], at: usize, count: u32, from: u32, number: GlobalIndex) -> u32
    requires { Ascending part.now at count × Past part.now at count from number.0 }
    ensures { (result ≡ smaller part.now at count number.0) × (result ≤ count) }
{
    let k = number.0;
    for low in from..count {
        let here = at + 40 * (low as usize);
        if 16 <= low - from {
            return low + find_ghost(part, here, count - low, GlobalIndex(k));
        }
        if k <= encoding::bytes::read_u32(part, here) {
            return low;
        }
    }
    count
}

// Writes the core of the record with the number, a tree of the part or one of its ghosts. The ghosts before `from` are smaller; answers from where on to search for a larger number.
fn write_ghost(
    part: &[u8],
    count: u32,
    ghosts: u32,
    faces: u32,
    first: u32,
    from: u32,
    number: GlobalIndex,
    out: &mut [u8],
    to: usize,
) -> u32
    requires { GhostRoom part.now out.old count ghosts faces first number.0 to × Past part.now (ghost_place count 0) ghosts from number.0 }
    ensures { (out.new ≡ splice out.old to (part_core part.now number.0)) × Past part.now (ghost_place count 0) ghosts result number.0 }
{
    if in_range(first, first + count, number) {
        let tree = to_local(number, GlobalIndex(first));
        write_core(part, count, ghosts, faces, tree_at(tree), &mut *out, to);
        return from;
    }
    let position = find_from(part, ghost_at(count, 0), ghosts, from, number);
    encoding::record::copy40(part, ghost_at(count, position), &mut *out, to);
    position
}

// Writes the cores of a set from byte `at` on, ascending.
fn write_ghosts(
    part: &[u8],
    count: u32,
    ghosts: u32,
    faces: u32,
    first: u32,
    marks: &[u64],
    out: &mut [u8],
    at: usize,
)
    requires { GhostsRoom part.now marks.now out.old count ghosts faces first at }
    ensures { out.new ≡ splice out.old at (cores_below (part_core part.now) (in_set marks.now) (64 * length marks.now)) }
{
    let end = 64 * (marks.len() as u32);
    let mut to = at;
    let mut from = 0;
    let mut k = bits::set::next_member(marks, 0);
    // from member to member of the set
    while k < end {
        from = write_ghost(
            part,
            count,
            ghosts,
            faces,
            first,
            from,
            GlobalIndex(k),
            &mut *out,
            to,
        );
        to += 40;
        k = bits::set::next_member(marks, k + 1);
    }
}

// Writes the records of a message behind its header: n trees from `low` on, and the ghosts of the set.
fn write_records(part: &[u8], low: u32, n: u32, marks: &[u64], out: &mut [u8])
    requires { RecordsRoom part.now marks.now out.old low n }
    ensures { out.new ≡ splice out.old message_header (records_from (part_record part.now) low n ++ cores_below (part_core part.now) (in_set marks.now) (64 * length marks.now)) }
{
    let count = part::layout::tree_count(part);
    let ghosts = part::layout::ghost_count(part);
    let first = part::layout::first_tree(part).0;
    let faces = records::shape::faces_in(part::layout::dimension(part));
    let at = 32 + 64 * (n as usize);
    write_trees(part, count, ghosts, faces, first, low, n, &mut *out);
    write_ghosts(part, count, ghosts, faces, first, marks, &mut *out, at);
}

// Writes a message, given the g ghosts that go.
pub fn write_message(sending: Sending<'_>, g: u32, epoch: u32, marks: &[u64], out: &mut [u8])
    requires { RoomFor sending g epoch marks.now out.old }
    ensures { out.new ≡ splice out.old 0 (message_of sending.entry epoch) }
{
    let part = sending.part;
    let p = sending.sender;
    let q = sending.receiver;
    let n = sending.count;
    let dimension = part::layout::dimension(part);
    let trees = part::layout::trees(part);
    let ranks = offsets::table::ranks(sending.old) as u32;
    encoding::header::write_eight(&mut *out, [epoch, dimension, trees, ranks, p, q, n, g]);
    write_records(part, sending.first, n, marks, &mut *out);
}

// Marks the ghosts that go, and writes the message if there is room for it (22).
pub fn build_range(
    sending: Sending<'_>,
    epoch: u32,
    marks: &mut [u64],
    out: &mut [u8],
) -> Result<u64, Refusal>
    requires { Sends sending × Room sending.old.now marks.old }
    ensures { (length_of result, out.new) ≡ built_range (message_of sending.entry epoch) out.old }
{
    let g = going(sending, &mut *marks);
    let size = message::layout::ghost_at(sending.count, g);
    if out.len() < size {
        return Err(Refusal::Buffer);
    }
    write_message(sending, g, epoch, &*marks, &mut *out);
    Ok(size as u64)
}

// The same, with words for so many trees, no more than `WORDS`.
fn build_with<const WORDS: usize>(
    sending: Sending<'_>,
    epoch: u32,
    words: usize,
    out: &mut [u8],
) -> Result<u64, Refusal>
    requires { Sends sending × (part_k sending.part.now ≤ 64 * words) × (words ≤ WORDS) × (WORDS ≤ most_words) }
    ensures { (length_of result, out.new) ≡ built_range (message_of sending.entry epoch) out.old }
{
    let mut marks = [0u64; WORDS];
    build_range(sending, epoch, &mut marks[..words], &mut *out)
}

// The same. To clear the words for all trees takes longer than to write a small message: up to 16,384 trees have fewer words, and so have up to 65,536.
pub fn build_sent(sending: Sending<'_>, epoch: u32, out: &mut [u8]) -> Result<u64, Refusal>
    requires { Sends sending }
    ensures { (length_of result, out.new) ≡ built_range (message_of sending.entry epoch) out.old }
{
    let words = mark_words(sending.part);
    if words <= 256 {
        return build_with::<256>(sending, epoch, words, &mut *out);
    }
    if words <= 1024 {
        return build_with::<1024>(sending, epoch, words, &mut *out);
    }
    build_with::<16384>(sending, epoch, words, &mut *out)
}
