// Answers of public calls. When a call is refused, `refusal` is the number of the first check that failed and every other field is 0.
ghost use Rattle.std.specs.Prelude.{◌≡◌};
ghost use Rattle.encoding.specs.Refusals.{length_of, count_of};

use crate::refusal::Refusal;

// How long the object is that a call wrote or was asked about, in bytes.
#[repr(C)]
#[derive(Clone, Copy)]
pub struct Length {
    pub refusal: u32,
    pub length: u64,
}

// How many entries a call wrote, or messages it took.
#[repr(C)]
#[derive(Clone, Copy)]
pub struct Count {
    pub refusal: u32,
    pub count: u32,
}

// What C gets of a length, or of a refusal.
impl From<Result<u64, Refusal>> for Length {
    ghost from_gives = { λ answer length. length ≡ length_of answer };

    fn from(answer: Result<u64, Refusal>) -> Length {
        match answer {
            Ok(length) => Length { refusal: 0, length },
            Err(refusal) => Length {
                refusal: refusal.number(),
                length: 0,
            },
        }
    }
}

// What C gets of a count, or of a refusal.
impl From<Result<u32, Refusal>> for Count {
    ghost from_gives = { λ answer count. count ≡ count_of answer };

    fn from(answer: Result<u32, Refusal>) -> Count {
        match answer {
            Ok(count) => Count { refusal: 0, count },
            Err(refusal) => Count {
                refusal: refusal.number(),
                count: 0,
            },
        }
    }
}
