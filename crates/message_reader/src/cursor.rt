// How the place of a reader moves on.
ghost use Rattle.std.specs.Prelude.{◌≡◌};
ghost use Rattle.message_reader.specs.Handing.{place_after};

// The place after place i: after the last it stays.
pub fn place_after(message: &[u8], i: u64) -> u64
    ensures { result ≡ place_after message.now i }
{
    if message::place::record_at(message, i).is_empty() {
        return i;
    }
    i + 1
}
