// The checks of a message's ghosts: that each is due, and none is held.
ghost use Rattle.std.specs.Prelude.{◌≡◌, ℕ, Bool, true, not, ◌*◌, ◌≤◌, ◌<◌};
ghost use Rattle.encoding.specs.Below.{all_below};
ghost use Rattle.encoding.specs.Pieces.{piece};
ghost use Rattle.offsets.specs.Limits.{max_trees};
ghost use Rattle.records.specs.Record.{core_size, number_of};
ghost use Rattle.part.specs.Means.{Ascending};
ghost use Rattle.message.specs.Layout.{message_k, message_trees, message_ghosts, message_ghost, in_layout};
ghost use Rattle.area.specs.Area.{area_new};
ghost use Rattle.area.specs.Deliver.{ghost_due, ghost_new};
ghost use Rattle.deliver_ghosts.specs.Means.{Checkable, across_faces, beside_first, Marked, FacesFit, TreesFit, ghost_beside, Beside, held_at, HeldFit};

use records::index::GlobalIndex;

// ---- due

// Adds the neighbours across the first faces of the record at byte `at`.
fn mark_faces(message: &[u8], at: usize, faces: u32, marks: &mut [u64])
    requires { FacesFit message.now at faces marks.old }
    ensures { Marked marks.old (across_faces (piece message.now at core_size) faces) marks.new }
{
    for face in 0..faces {
        let k = records::read::neighbour_of(message, at, face);
        bits::set::add_member(&mut *marks, k);
    }
}

// Adds the neighbours across the used faces of the message's trees.
fn mark_trees(message: &[u8], marks: &mut [u64])
    requires { TreesFit message.now marks.old }
    ensures { Marked marks.old (beside_first message.now (message_trees message.now)) marks.new }
{
    for i in 0..message::header::tree_count(message) {
        let at = message::layout::tree_at(i);
        let faces = records::shape::face_count(records::read::shape_of(message, at));
        mark_faces(message, at, faces, &mut *marks);
    }
}

// Whether ghost j is outside the rank's range and a neighbour of a tree of the message. No number from `below`, which is K, is a neighbour.
fn ghost_beside(
    new: &[u8],
    rank: usize,
    message: &[u8],
    marks: &[u64],
    below: u32,
    count: u32,
    j: u32,
) -> bool
    requires { Beside new.now message.now marks.now rank × (below ≡ message_k message.now) × (count ≡ message_trees message.now) × (j < message_ghosts message.now) }
    ensures { result ≡ ghost_beside new.now rank message.now j }
{
    let number = records::read::number_of(message, message::layout::ghost_at(count, j));
    if below <= number {
        return false;
    }
    !offsets::table::holds(new, rank, number as u64) & bits::set::in_set(marks, number)
}

fn ghosts_beside(new: &[u8], rank: usize, message: &[u8], marks: &[u64]) -> bool
    requires { Beside new.now message.now marks.now rank }
    ensures { result ≡ all_below (message_ghosts message.now) (ghost_beside new.now rank message.now) }
{
    let below = message::header::trees_below(message);
    let count = message::header::tree_count(message);
    for j in 0..message::header::ghost_count(message) {
        if !ghost_beside(new, rank, message, marks, below, count, j) {
            return false;
        }
    }
    true
}

// Whether each ghost is outside the new range and a neighbour of a tree of the message, with words for K trees.
fn due_with<const WORDS: usize>(area: &[u8], new: &[u8], message: &[u8]) -> bool
    requires { Checkable area.now message.now × (new.now ≡ area_new area.now) × (message_k message.now ≤ 64 * WORDS) × (64 * WORDS ≤ max_trees) }
    ensures { result ≡ all_below (message_ghosts message.now) (ghost_due area.now message.now) }
{
    let mut marks = [0u64; WORDS];
    mark_trees(message, &mut marks);
    ghosts_beside(new, area::read::rank(area), message, &marks)
}

// The same (17). To clear the words for all trees takes longer than to check a small message: up to 65,536 trees have fewer words.
pub fn ghosts_due(area: &[u8], new: &[u8], message: &[u8]) -> bool
    requires { Checkable area.now message.now × (new.now ≡ area_new area.now) }
    ensures { result ≡ all_below (message_ghosts message.now) (ghost_due area.now message.now) }
{
    if message::header::trees_below(message) <= 65536 {
        return due_with::<1024>(area, new, message);
    }
    due_with::<16384>(area, new, message)
}

// ---- not held

// Whether one of `count` core records that ascend from byte `at` has the number.
fn is_held(area: &[u8], at: usize, count: u32, number: GlobalIndex) -> bool
    requires { Ascending area.now at count }
    ensures { result ≡ held_at area.now at count number.0 }
{
    let k = number.0;
    let position = part::range::find_ghost(area, at, count, number);
    if count <= position {
        return false;
    }
    encoding::bytes::read_u32(area, at + 40 * (position as usize)) == k
}

// Whether no ghost of the message passes the test of its number.
fn no_ghost<F: Fn(u32) -> bool>(message: &[u8], held: F) -> bool
    requires laid { in_layout message.now ≡ true }
    requires callable { (j : ℕ) → j < message_ghosts message.now → F.pre held (number_of (message_ghost message.now j)) }
    ensures none { (test : ℕ → Bool) → ((j : ℕ) (b : Bool) → j < message_ghosts message.now → F.post held (number_of (message_ghost message.now j)) b → b ≡ test j) → result ≡ all_below (message_ghosts message.now) (λ j. not (test j)) }
{
    let count = message::header::tree_count(message);
    for j in 0..message::header::ghost_count(message) {
        let number = records::read::number_of(message, message::layout::ghost_at(count, j));
        if held(number) {
            return false;
        }
    }
    true
}

// Whether no ghost is held already, each searched among those held.
fn none_found(area: &[u8], message: &[u8]) -> bool
    requires { Checkable area.now message.now }
    ensures { result ≡ all_below (message_ghosts message.now) (ghost_new area.now message.now) }
{
    let held = area::read::ghosts(area);
    let at = area::layout::ghost_slots_place(area::read::ranks(area), area::read::count(area));
    no_ghost(message, |number| {
        is_held(area, at, held, GlobalIndex(number))
    })
}

// Adds the numbers of `count` core records from byte `at` on.
fn mark_held(area: &[u8], at: usize, count: u32, marks: &mut [u64])
    requires { HeldFit area.now at count marks.old }
    ensures { Marked marks.old (held_at area.now at count) marks.new }
{
    for i in 0..count {
        let k = encoding::bytes::read_u32(area, at + 40 * (i as usize));
        bits::set::add_member(&mut *marks, k);
    }
}

// Whether no ghost is held already, by a set of those held.
fn none_held(area: &[u8], message: &[u8]) -> bool
    requires { Checkable area.now message.now × (all_below (message_ghosts message.now) (ghost_due area.now message.now) ≡ true) }
    ensures { result ≡ all_below (message_ghosts message.now) (ghost_new area.now message.now) }
{
    let held = area::read::ghosts(area);
    let at = area::layout::ghost_slots_place(area::read::ranks(area), area::read::count(area));
    let mut marks = [0u64; 16384];
    mark_held(area, at, held, &mut marks);
    no_ghost(message, |number| bits::set::in_set(&marks, number))
}

// Whether no ghost is held already (18), where all are due. The set takes the time of those held: it is made where the message has a fair share of them.
pub fn ghosts_new(area: &[u8], message: &[u8]) -> bool
    requires { Checkable area.now message.now × (all_below (message_ghosts message.now) (ghost_due area.now message.now) ≡ true) }
    ensures { result ≡ all_below (message_ghosts message.now) (ghost_new area.now message.now) }
{
    let ghosts = message::header::ghost_count(message);
    if (ghosts < 256) | (ghosts < area::read::ghosts(area) / 16) {
        return none_found(area, message);
    }
    none_held(area, message)
}
