// Where the records of a message begin, and whether it is in layout.
ghost use Rattle.std.specs.Prelude.{◌≡◌, ◌&&◌, ◌+◌, ◌*◌, ◌≤◌, ◌<◌, ltb, length};
ghost use Rattle.encoding.specs.Below.{all_below};
ghost use Rattle.encoding.specs.Pieces.{piece};
ghost use Rattle.records.specs.Record.{core_size, neighbour_of};
ghost use Rattle.message.specs.Layout.{message_tree_place, message_ghost_place, message_dimension, message_k, record_laid, size_laid, after_last, records_laid, in_layout};
ghost use Rattle.message.specs.Means.{laid_core, LaidRow};

use crate::header::{dimension, ghost_count, tree_count, trees_below};

// Where tree i begins.
pub fn tree_at(i: u32) -> usize
    ensures { result ≡ message_tree_place i }
{
    32 + 64 * (i as usize)
}

// Where ghost j of a message with n trees begins.
pub fn ghost_at(n: u32, j: u32) -> usize
    ensures { result ≡ message_ghost_place n j }
{
    32 + (64 * (n as usize) + 40 * (j as usize))
}

// Whether the header's dimension is one and the length is what the header says.
pub fn size_laid(message: &[u8]) -> bool
    ensures { result ≡ size_laid message.now }
{
    if message.len() < 32 {
        return false;
    }
    mesh::layout::dimension_ok(dimension(message))
        & (message.len() == ghost_at(tree_count(message), ghost_count(message)))
}

// Whether the neighbours of all six faces of the record at byte `at` are below `below`. They are compared together, without a branch.
fn six_below(bs: &[u8], at: usize, below: u32) -> bool
    requires { at + core_size ≤ length bs.now }
    ensures { result ≡ all_below 6 (λ f. ltb (neighbour_of (piece bs.now at core_size) f) below) }
{
    let mut all = true;
    for face in 0..6 {
        all &= records::read::neighbour_of(bs, at, face) < below;
    }
    all
}

// Whether the neighbours of the first faces of the record at byte `at` are below `below`.
fn neighbours_below(bs: &[u8], at: usize, faces: u32, below: u32) -> bool
    requires { (at + core_size ≤ length bs.now) × (faces ≤ 6) }
    ensures { result ≡ all_below faces (λ f. ltb (neighbour_of (piece bs.now at core_size) f) below) }
{
    if faces == 6 {
        return six_below(bs, at, below);
    }
    for face in 0..faces {
        if below <= records::read::neighbour_of(bs, at, face) {
            return false;
        }
    }
    true
}

// Whether the record at byte `at` is in form, with a shape of the message's dimension and neighbours below its K.
fn record_laid(message: &[u8], at: usize, dimension: u32, below: u32) -> bool
    requires { (at + core_size ≤ length message.now) × (dimension ≡ message_dimension message.now) × (below ≡ message_k message.now) }
    ensures { result ≡ record_laid message.now (piece message.now at core_size) }
{
    let shape = records::read::shape_of(message, at);
    let number = records::read::number_of(message, at);
    records::form::in_form(message, at, number)
        & (records::shape::dimension_of(shape) == dimension)
        & neighbours_below(message, at, records::shape::face_count(shape), below)
}

// Records in a message: `count` of them from byte `start`, one every `stride` bytes.
#[derive(Clone, Copy)]
struct Row<'a> {
    message: &'a [u8],
    start: usize,
    stride: usize,
    count: u32,
}

// Where record i of a row begins.
fn core_at(row: Row<'_>, i: u32) -> usize
    requires { (LaidRow row.message.now row.start row.stride row.count) × (i < row.count) }
    ensures { (result ≡ row.entry.start + row.entry.stride * i) × (result + core_size ≤ length row.entry.message.now) }
{
    row.start + row.stride * (i as usize)
}

// Whether record i of a row has a larger number than the one before it.
fn after_last(row: Row<'_>, i: u32) -> bool
    requires { (LaidRow row.message.now row.start row.stride row.count) × (i < row.count) }
    ensures { result ≡ after_last (laid_core row.entry.message.now row.entry.start row.entry.stride) i }
{
    if i == 0 {
        return true;
    }
    let before = core_at(row, i - 1);
    let at = core_at(row, i);
    records::read::number_of(row.message, before) < records::read::number_of(row.message, at)
}

// Whether record i of a row is laid out so and has a larger number than the one before it.
fn record_next(row: Row<'_>, i: u32, dimension: u32, below: u32) -> bool
    requires { (LaidRow row.message.now row.start row.stride row.count) × (i < row.count) × (dimension ≡ message_dimension row.message.now) × (below ≡ message_k row.message.now) }
    ensures { result ≡ (record_laid row.entry.message.now (laid_core row.entry.message.now row.entry.start row.entry.stride i) && after_last (laid_core row.entry.message.now row.entry.start row.entry.stride) i) }
{
    let at = core_at(row, i);
    record_laid(row.message, at, dimension, below) & after_last(row, i)
}

// Whether the records of a row are laid out so and ascend.
fn records_laid(row: Row<'_>, dimension: u32, below: u32) -> bool
    requires { (LaidRow row.message.now row.start row.stride row.count) × (dimension ≡ message_dimension row.message.now) × (below ≡ message_k row.message.now) }
    ensures { result ≡ records_laid row.entry.message.now row.entry.count (laid_core row.entry.message.now row.entry.start row.entry.stride) }
{
    for i in 0..row.count {
        if !record_next(row, i, dimension, below) {
            return false;
        }
    }
    true
}

// Whether the message is in layout: one pass over its records.
pub fn in_layout(message: &[u8]) -> bool
    ensures { result ≡ in_layout message.now }
{
    if !size_laid(message) {
        return false;
    }
    let dimension = dimension(message);
    let below = trees_below(message);
    let trees = tree_count(message);
    let ghosts = ghost_count(message);
    let tree_row = Row {
        message,
        start: 32,
        stride: 64,
        count: trees,
    };
    if !records_laid(tree_row, dimension, below) {
        return false;
    }
    let ghost_row = Row {
        message,
        start: ghost_at(trees, 0),
        stride: 40,
        count: ghosts,
    };
    records_laid(ghost_row, dimension, below)
}
