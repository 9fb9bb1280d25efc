// Finding a record by its global number.
#![tactic(auto)]

ghost use Rattle.std.specs.Prelude.{◌≡◌, true, false, ◌*◌, ◌/◌, ◌≤◌, ◌<◌, IfSome, length, MatchOption};
ghost use Rattle.lookup.specs.Lookup.{found, first_place, lookup_record, found_record, found_of, bytes_of};

use records::index::GlobalIndex;

// The index of the first whole record of `size` bytes with the number.
fn find(bs: &[u8], size: usize, number: GlobalIndex) -> Option<usize>
    requires { 4 ≤ size }
    ensures { MatchOption result (found size bs.now number.0 ≡ false) (λ i. (found size bs.now number.0 ≡ true) × (size * i ≡ first_place size bs.now number.0) × (i < length bs.now / size)) }
{
    let wanted = number.0;
    for i in 0..bs.len() / size {
        if encoding::bytes::read_u32(bs, size * i) == wanted {
            return Some(i);
        }
    }
    None
}

// Where a record is: among the trees or among the ghosts, and the byte where it begins there.
#[derive(Clone, Copy, Debug, PartialEq, Eq)]
pub enum Place {
    Tree(usize),
    Ghost(usize),
}

// The same as C gets it: `which` is 1 for the trees, 2 for the ghosts and 0 for neither, `offset` is 0 for neither.
#[repr(C)]
#[derive(Clone, Copy)]
pub struct Found {
    pub which: u32,
    pub offset: u64,
}

impl From<Option<Place>> for Found {
    ghost from_gives = { λ place found. found ≡ found_of place };

    fn from(place: Option<Place>) -> Found {
        match place {
            Some(Place::Tree(at)) => Found {
                which: 1,
                offset: at as u64,
            },
            Some(Place::Ghost(at)) => Found {
                which: 2,
                offset: at as u64,
            },
            None => Found {
                which: 0,
                offset: 0,
            },
        }
    }
}

// Where the record with the number is: the first, trees before ghosts.
pub fn find_record(trees: &[u8], ghosts: &[u8], number: GlobalIndex) -> Option<Place>
    ensures { found_of result ≡ found_record trees.now ghosts.now number.0 }
{
    if let Some(tree) = find(trees, 64, number) {
        return Some(Place::Tree(64 * tree));
    }
    let held = find(ghosts, 40, number)?;
    Some(Place::Ghost(40 * held))
}

// The record with the number, as a part of the lent bytes: the first, trees before ghosts.
pub fn lookup<'a>(trees: &'a [u8], ghosts: &'a [u8], number: GlobalIndex) -> Option<&'a [u8]>
    ensures { (bytes_of result ≡ lookup_record trees.now ghosts.now number.0) × IfSome result (λ lent. 0 < length lent.now) }
{
    match find_record(trees, ghosts, number)? {
        Place::Tree(at) => Some(&trees[at..at + 64]),
        Place::Ghost(at) => Some(&ghosts[at..at + 40]),
    }
}
