// A reader over a lent message: it hands out the records one by one, trees first, then ghosts.
#![tactic(auto)]

ghost use Rattle.std.specs.Prelude.{◌≡◌};
ghost use Rattle.message_reader.specs.Handing.{begin_of, begun_seen, next_of, step_seen};

use encoding::refusal::Refusal;

mod cursor;
pub mod place;

// The lent message and the place of the next record. Its fields are private, so that every reader of a caller comes from `begin`, over a message in layout.
#[derive(Clone, Copy)]
pub struct Reader<'a> {
    message: &'a [u8],
    at: u64,
}

// A reader, and how many records it has.
#[derive(Clone, Copy)]
pub struct Begun<'a> {
    pub records: u64,
    pub reader: Reader<'a>,
}

// A record, how many remain after it, and the reader moved on.
#[derive(Clone, Copy)]
pub struct Step<'a> {
    pub piece: &'a [u8],
    pub remain: u64,
    pub reader: Reader<'a>,
}

// Make a reader (11): over a refused message there is none.
pub fn begin<'a>(message: &'a [u8]) -> Result<Begun<'a>, Refusal>
    ensures { begun_seen result ≡ begin_of message.now }
{
    let records = message::begin_reading(message)?;
    let reader = Reader { message, at: 0 };
    Ok(Begun { records, reader })
}

// The next record, as a part of the lent message: after the last an empty piece and 0.
pub fn next<'a>(reader: Reader<'a>) -> Step<'a>
    ensures { step_seen result ≡ next_of reader.entry }
{
    let message = reader.message;
    let at = reader.at;
    let piece = message::place::record_at(message, at);
    let remain = message::place::remain_after(message, at);
    let onward = cursor::place_after(message, at);
    Step {
        piece,
        remain,
        reader: Reader {
            message,
            at: onward,
        },
    }
}
