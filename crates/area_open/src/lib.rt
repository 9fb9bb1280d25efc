// Opening an area, and how far it is.
#![tactic(auto)]

ghost use Rattle.std.specs.Prelude.{◌≡◌};
ghost use Rattle.encoding.specs.Refusals.{length_of};
ghost use Rattle.area_open.specs.Answers.{progress_from};
ghost use Rattle.area_open.specs.Calls.{area_length_of, open_area_of, progress_of};

use area::header::tree_count;
use area::layout::area_size;
use check::check_opening;
use encoding::refusal::Refusal;

pub mod check;
pub mod heard;
pub mod write;

// How many senders are heard and how many are due.
#[derive(Clone, Copy, Debug, PartialEq, Eq)]
pub struct Senders {
    pub heard: u32,
    pub due: u32,
}

// The same as C gets it. When refused, `refusal` is 10 and the rest is 0.
#[repr(C)]
#[derive(Clone, Copy)]
pub struct Progress {
    pub refusal: u32,
    pub heard: u32,
    pub due: u32,
}

impl From<Result<Senders, Refusal>> for Progress {
    ghost from_gives = { λ answer progress. progress ≡ progress_from answer };

    fn from(answer: Result<Senders, Refusal>) -> Progress {
        match answer {
            Ok(senders) => Progress {
                refusal: 0,
                heard: senders.heard,
                due: senders.due,
            },
            Err(refusal) => Progress {
                refusal: refusal.number(),
                heard: 0,
                due: 0,
            },
        }
    }
}

// How long the area of a rank is (2, 3, 4, 5).
pub fn area_length(old: &[u8], new: &[u8], rank: u32, dimension: u32) -> Result<u64, Refusal>
    ensures { length_of result ≡ area_length_of old.now new.now rank dimension }
{
    check_opening(old, new, rank, dimension)?;
    let ranks = offsets::table::ranks(old);
    let count = tree_count(new, rank as usize);
    Ok(area_size(dimension, ranks, count) as u64)
}

// Open an area: write it for two tables, a rank, a dimension and an epoch, with no sender heard (2, 3, 4, 5, 22).
pub fn open_area(
    old: &[u8],
    new: &[u8],
    rank: u32,
    dimension: u32,
    epoch: u32,
    out: &mut [u8],
) -> Result<u64, Refusal>
    ensures { (length_of result, out.new) ≡ open_area_of old.now new.now rank dimension epoch out.old }
{
    check_opening(old, new, rank, dimension)?;
    let ranks = offsets::table::ranks(old);
    let count = tree_count(new, rank as usize);
    let n = area_size(dimension, ranks, count);
    if out.len() < n {
        return Err(Refusal::Buffer);
    }
    write::write_fresh(old, new, rank, dimension, epoch, &mut *out);
    Ok(n as u64)
}

// How many senders are heard, by the ones in the words, and how many are due (10).
pub fn progress_of(area: &[u8]) -> Result<Senders, Refusal>
    ensures { progress_from result ≡ progress_of area.now }
{
    if !area_check::sound::area_sound(area) {
        return Err(Refusal::Area);
    }
    let heard = heard::heard_ones(area);
    let tables = area::read::tables_of(area);
    let rank = area::read::rank(area);
    let due = pattern::set::set_count(tables.old, tables.new, rank, false) as u32;
    Ok(Senders { heard, due })
}
