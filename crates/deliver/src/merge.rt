// The ghosts that came, merged into those held.
ghost use Rattle.std.specs.Prelude.{◌≡◌};
ghost use Rattle.encoding.specs.Pieces.{splice};
ghost use Rattle.area.specs.Means.{core_at};
ghost use Rattle.deliver.specs.Means.{held_last, merged, LastRoom, MergeRoom};

// Whether of the first i held ghosts and the first j that came the last held one has the largest number.
fn held_last(area: &[u8], at: usize, i: usize, message: &[u8], from: usize, j: usize) -> bool
    requires { LastRoom area.now at i message.now from j }
    ensures { result ≡ held_last (core_at area.now at) (core_at message.now from) i j }
{
    if i == 0 {
        return false;
    }
    let held = records::read::number_of(area, at + 40 * (i - 1));
    let came = records::read::number_of(message, from + 40 * (j - 1));
    came < held
}

// Merges, from the back, the ghosts that came, from byte `from` of the message, into those held, from byte `at` of the area.
pub fn merge(area: &mut [u8], at: usize, held: usize, message: &[u8], from: usize, came: usize)
    requires { MergeRoom area.old at held message.now from came }
    ensures { area.new ≡ splice area.old at (merged (core_at area.old at) (core_at message.now from) held came) }
{
    // a `while`: i and j fall in turn, as the numbers say
    let mut i = held;
    let mut j = came;
    while 0 < j {
        if held_last(&*area, at, i, message, from, j) {
            i -= 1;
            encoding::record::move40(&mut *area, at + 40 * i, at + 40 * (i + j));
        } else {
            j -= 1;
            encoding::record::copy40(message, from + 40 * j, &mut *area, at + 40 * (i + j));
        }
    }
}
