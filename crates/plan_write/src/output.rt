// The whole output.
ghost use Rattle.std.specs.Prelude.{◌≡◌, ◌+◌, length};
ghost use Rattle.encoding.specs.Refusals.{length_of, refusal_number};
ghost use Rattle.plan_read.specs.Text.{ranks_word};
ghost use Rattle.plan_write.specs.Moves.{trees_word, messages_word, refused_word, line_text, moves_output};
ghost use Rattle.plan_write.specs.Means.{Put, PlanTables, SmallOutput, FitsOutput, output_answer};

use crate::moves::{moves_size, put_moves};
use crate::put::{line_length, put_line};
use encoding::refusal::Refusal;
use offsets::table::{ranks, trees};

// How long the output is, of which the moves have so many bytes.
fn output_length(ranks: u64, trees: u64, bytes: usize, moves: u64) -> usize
    requires { SmallOutput ranks trees bytes moves }
    ensures { result ≡ length (line_text ranks_word ranks) + length (line_text trees_word trees) + bytes + length (line_text messages_word moves) }
{
    line_length(b"ranks=", ranks)
        + line_length(b"trees=", trees)
        + bytes
        + line_length(b"messages=", moves)
}

// The output, of which it is known how many moves it lists.
fn put_output(out: &mut [u8], old: &[u8], new: &[u8], moves: u64) -> usize
    requires { FitsOutput old.now new.now out.old moves }
    ensures { Put out.old out.new 0 result (moves_output old.now new.now) }
{
    let a = put_line(&mut *out, 0, b"ranks=", ranks(old) as u64);
    let b = put_line(&mut *out, a, b"trees=", trees(old));
    let c = put_moves(&mut *out, b, old, new);
    put_line(&mut *out, c, b"messages=", moves)
}

// The output of two tables that agree, if it fits (22).
pub fn write_moves(old: &[u8], new: &[u8], out: &mut [u8]) -> Result<u64, Refusal>
    requires { PlanTables old.now new.now }
    ensures { (length_of result, out.new) ≡ output_answer (moves_output old.now new.now) out.old }
{
    let size = moves_size(old, new);
    let moves = size.moves as u64;
    if out.len() < output_length(ranks(old) as u64, trees(old), size.bytes, moves) {
        return Err(Refusal::Buffer);
    }
    let end = put_output(&mut *out, old, new, moves);
    Ok(end as u64)
}

// The line of a refused input, if it fits (22).
pub fn write_refused(refusal: Refusal, out: &mut [u8]) -> Result<u64, Refusal>
    ensures { (length_of result, out.new) ≡ output_answer (line_text refused_word (refusal_number refusal)) out.old }
{
    let n = refusal.number() as u64;
    if out.len() < line_length(b"refused=", n) {
        return Err(Refusal::Buffer);
    }
    let end = put_line(&mut *out, 0, b"refused=", n);
    Ok(end as u64)
}
