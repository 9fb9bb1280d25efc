// What the calls answer that say what is wrong with a header or a length.
ghost use Rattle.std.specs.Prelude.{◌≡◌};
ghost use Rattle.headers.specs.Answers.{field_number, wrong_of, answer_of};

use encoding::refusal::Refusal;

// A field of a header, or the length of the buffer. C callers get its number, as include/vejgodat.h names it.
#[derive(Clone, Copy, Debug, PartialEq, Eq)]
pub enum Field {
    /// the buffer is shorter than a header
    Short = 1,
    /// the dimension
    Dimension = 2,
    /// K
    Trees = 3,
    /// P
    Ranks = 4,
    /// the rank
    Rank = 5,
    /// the rank's first tree
    First = 6,
    /// the rank's count
    Count = 7,
    /// the last number, which is to be 0
    Zero = 8,
    /// the length, which follows from the counts
    Length = 9,
}

impl Field {
    pub fn number(self) -> u32
        ensures { result ≡ field_number self }
    {
        self as u32
    }
}

// A field that is wrong: the number that would be right, if only one would be, and the number that stands there.
#[derive(Clone, Copy, Debug, PartialEq, Eq)]
pub struct Wrong {
    pub field: Field,
    pub due: Option<u64>,
    pub found: u64,
}

// The first field that is wrong, as C gets it. When refused, `refusal` is the number of the first check that failed and the rest is 0. Else `field` is 0 where nothing is wrong, `due` the number that would be right, 0 where several would be, and `found` the number that stands there.
#[repr(C)]
#[derive(Clone, Copy)]
pub struct WrongField {
    pub refusal: u32,
    pub field: u32,
    pub due: u64,
    pub found: u64,
}

impl From<Option<Wrong>> for WrongField {
    ghost from_gives = { λ wrong field. field ≡ wrong_of wrong };

    fn from(wrong: Option<Wrong>) -> WrongField {
        match wrong {
            Some(wrong) => WrongField {
                refusal: 0,
                field: wrong.field.number(),
                due: wrong.due.unwrap_or(0),
                found: wrong.found,
            },
            None => WrongField {
                refusal: 0,
                field: 0,
                due: 0,
                found: 0,
            },
        }
    }
}

impl From<Result<Option<Wrong>, Refusal>> for WrongField {
    ghost from_gives = { λ answer field. field ≡ answer_of answer };

    fn from(answer: Result<Option<Wrong>, Refusal>) -> WrongField {
        match answer {
            Ok(wrong) => WrongField::from(wrong),
            Err(refusal) => WrongField {
                refusal: refusal.number(),
                field: 0,
                due: 0,
                found: 0,
            },
        }
    }
}
