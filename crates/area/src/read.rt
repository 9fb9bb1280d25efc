// Reading an area: the numbers of its header, its tables, and whether a sender is heard.
ghost use Rattle.std.specs.Prelude.{◌≡◌, ◌*◌, ◌≤◌, ◌<◌, length};
ghost use Rattle.area.specs.Layout.{area_header, heard_words};
ghost use Rattle.area.specs.Area.{area_epoch, area_dimension, area_k, area_p, area_rank, area_count, area_ghosts, area_old, area_new, heard as is_heard};
ghost use Rattle.area.specs.Means.{TablesRoom, HeaderHolds};

use crate::layout::{new_place, words_place};

pub fn epoch(area: &[u8]) -> u32
    requires { area_header ≤ length area.now }
    ensures { result ≡ area_epoch area.now }
{
    encoding::bytes::read_u32(area, 0)
}

pub fn dimension(area: &[u8]) -> u32
    requires { area_header ≤ length area.now }
    ensures { result ≡ area_dimension area.now }
{
    encoding::bytes::read_u32(area, 4)
}

// K.
pub fn trees(area: &[u8]) -> u32
    requires { area_header ≤ length area.now }
    ensures { result ≡ area_k area.now }
{
    encoding::bytes::read_u32(area, 8)
}

// P.
pub fn ranks(area: &[u8]) -> usize
    requires { area_header ≤ length area.now }
    ensures { result ≡ area_p area.now }
{
    encoding::bytes::read_u32(area, 12) as usize
}

pub fn rank(area: &[u8]) -> usize
    requires { area_header ≤ length area.now }
    ensures { result ≡ area_rank area.now }
{
    encoding::bytes::read_u32(area, 16) as usize
}

// n.
pub fn count(area: &[u8]) -> u32
    requires { area_header ≤ length area.now }
    ensures { result ≡ area_count area.now }
{
    encoding::bytes::read_u32(area, 20)
}

pub fn ghosts(area: &[u8]) -> u32
    requires { area_header ≤ length area.now }
    ensures { result ≡ area_ghosts area.now }
{
    encoding::bytes::read_u32(area, 24)
}

// The old and the new table of an area.
#[derive(Clone, Copy)]
pub struct Tables<'a> {
    pub old: &'a [u8],
    pub new: &'a [u8],
}

pub fn tables_of(area: &[u8]) -> Tables
    requires { TablesRoom area.now }
    ensures { (result.old.now ≡ area_old area.now) × (result.new.now ≡ area_new area.now) }
{
    let ranks = ranks(area);
    let middle = new_place(ranks);
    let end = words_place(ranks);
    Tables {
        old: &area[32..middle],
        new: &area[middle..end],
    }
}

// Whether sender s is heard.
pub fn heard(area: &[u8], s: usize) -> bool
    requires { HeaderHolds area.now × (s < 64 * heard_words (area_p area.now)) }
    ensures { result ≡ is_heard area.now s }
{
    let at = words_place(ranks(area)) + 8 * (s / 64);
    bits::word::bit(encoding::bytes::read_u64(area, at), (s % 64) as u32)
}
