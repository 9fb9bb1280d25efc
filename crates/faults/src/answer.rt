// What the calls answer that say where an object fails, and what is wrong at one place of it.
ghost use Rattle.std.specs.Prelude.{◌≡◌};
ghost use Rattle.faults.specs.Kinds.{kind_number, fault_of, answer_of};

use encoding::refusal::Refusal;

// What may be wrong at one place. C callers get its number, as include/vejgodat.h names it.
#[derive(Clone, Copy, Debug, PartialEq, Eq)]
pub enum Kind {
    /// the first entry isn't 0
    First = 1,
    /// K, the last entry, is outside its limits
    Trees = 2,
    /// the entry is above K or below -K
    Entry = 3,
    /// the rank's count is negative
    Count = 4,
    /// the rank is empty, and its entry is negative
    Empty = 5,
    /// header or length
    Header = 6,
    /// the number is out of order
    Number = 7,
    /// the shape is none of the six
    Shape = 8,
    /// a zero byte isn't zero, or the region isn't below its limit
    Bytes = 9,
    /// the shape doesn't have this face, and it isn't marked unused
    Unused = 10,
    /// the face is a boundary, with an orientation
    Boundary = 11,
    /// the shape is of the other dimension
    Dimension = 12,
    /// the neighbour is none that this face may lead to
    Neighbour = 13,
    /// the orientation isn't below the number of corners
    Orientation = 14,
    /// the two faces differ in corners
    Corners = 15,
    /// the neighbour's link doesn't lead back
    Answer = 16,
    /// the ghost is beside no tree of the part
    Beside = 17,
}

impl Kind {
    pub fn number(self) -> u32
        ensures { result ≡ kind_number self }
    {
        self as u32
    }
}

// What is wrong at one place: the face is 0 where the kind has none.
#[derive(Clone, Copy, Debug, PartialEq, Eq)]
pub struct Wrong {
    pub kind: Kind,
    pub face: u32,
}

// The first place of an object at which something is wrong, and what the object's check refuses it with.
#[derive(Clone, Copy, Debug, PartialEq, Eq)]
pub struct Place {
    pub fault: Refusal,
    pub at: u32,
    pub wrong: Wrong,
}

// What C gets of where an object fails. When refused, `refusal` is the number of the first check that failed and the rest is 0. Else `fault` is 0 for a sound object or what its check refuses it with, and then `kind` says what is wrong at the place `at`, at `face` if the kind has one.
#[repr(C)]
#[derive(Clone, Copy)]
pub struct Fault {
    pub refusal: u32,
    pub fault: u32,
    pub kind: u32,
    pub at: u32,
    pub face: u32,
}

impl From<Option<Place>> for Fault {
    ghost from_gives = { λ place fault. fault ≡ fault_of place };

    fn from(place: Option<Place>) -> Fault {
        match place {
            Some(place) => Fault {
                refusal: 0,
                fault: place.fault.number(),
                kind: place.wrong.kind.number(),
                at: place.at,
                face: place.wrong.face,
            },
            None => Fault {
                refusal: 0,
                fault: 0,
                kind: 0,
                at: 0,
                face: 0,
            },
        }
    }
}

impl From<Result<Option<Place>, Refusal>> for Fault {
    ghost from_gives = { λ answer fault. fault ≡ answer_of answer };

    // in place at C's edge: as a call of its own it takes longer than to find the fault of a short table
    #[inline(always)]
    fn from(answer: Result<Option<Place>, Refusal>) -> Fault {
        match answer {
            Ok(place) => Fault::from(place),
            Err(refusal) => Fault {
                refusal: refusal.number(),
                fault: 0,
                kind: 0,
                at: 0,
                face: 0,
            },
        }
    }
}
