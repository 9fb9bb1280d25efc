// Whether every sender of the receive set is heard.
ghost use Rattle.std.specs.Prelude.{◌≡◌, ◌<◌};
ghost use Rattle.area.specs.Area.{area_p};
ghost use Rattle.area.specs.Close.{all_heard};
ghost use Rattle.area.specs.Means.{Tabled};
ghost use Rattle.close_check.specs.Means.{sender_heard};

use area::read::Tables;

// Sender s, if it is due.
fn sender_heard(area: &[u8], tables: Tables, s: usize) -> bool
    requires { Tabled area.now tables.old.now tables.new.now × (s < area_p area.now) }
    ensures { result ≡ sender_heard area.now s }
{
    if !pattern::range::sends_some(tables.old, tables.new, s, area::read::rank(area)) {
        return true;
    }
    area::read::heard(area, s)
}

// Only ranks in the window can be due.
pub fn all_heard(area: &[u8], tables: Tables) -> bool
    requires { Tabled area.now tables.old.now tables.new.now }
    ensures { result ≡ all_heard area.now }
{
    let window = pattern::window::window_of(tables.old, tables.new, area::read::rank(area), false);
    for s in window.first..window.end {
        if !sender_heard(area, tables, s) {
            return false;
        }
    }
    true
}
