// How many senders are heard.
ghost use Rattle.std.specs.Prelude.{◌≡◌};
ghost use Rattle.area.specs.Layout.{heard_words};
ghost use Rattle.area.specs.Area.{area_p};
ghost use Rattle.area.specs.Means.{HeaderHolds};
ghost use Rattle.area_open.specs.Means.{heard_ones};

use area::layout::{heard_words, words_place};
use area::read::ranks;

// How many bits of the words are set.
pub fn heard_ones(area: &[u8]) -> u32
    requires { HeaderHolds area.now }
    ensures { result ≡ heard_ones area.now (heard_words (area_p area.now)) }
{
    let ranks = ranks(area);
    let at = words_place(ranks);
    let mut heard = 0;
    for word in 0..heard_words(ranks) {
        heard += bits::word::ones(encoding::bytes::read_u64(area, at + 8 * word));
    }
    heard
}
