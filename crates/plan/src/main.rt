// Reads two offset tables from standard input and writes who sends which trees to whom. The whole output, refusals included, is that of plan_text::plan_output.
#![tactic(auto)]

ghost use Rattle.std.specs.Prelude.{◌≡◌, ◌≤◌, length, IfOk};

use std::io;
use std::io::{Read, Write};

// Room for the longest input that is read, and for a byte more, which shows that an input is too long.
fn input_buffer() -> [u8; 32769]
    ensures { 32769 ≡ length result }
{
    [0; 32769]
}

// Room for every output (`output_fits` of `PlanTexts`, crates/plan_text/specs/Promises.antt).
fn output_buffer() -> [u8; 131072]
    ensures { 131072 ≡ length result }
{
    [0; 131072]
}

// Reads until the buffer is full or the input ends, and answers how many bytes it put at the buffer's beginning. `examples` has it too:
// no crate below both reads input.
fn read_full(reader: &mut impl Read, text: &mut [u8]) -> io::Result<usize>
    ensures { IfOk result (λ n. n ≤ length text.new) }
{
    let mut done = 0;
    // as much at a time as the reader gives
    while done < text.len() {
        let n = reader.read(&mut text[done..])?;
        if n == 0 {
            break;
        }
        done += n;
    }
    Ok(done)
}

// The whole output for a text, written to a writer. It fits (`output_fits`), so something is always written.
fn answer(text: &[u8], out: &mut [u8], writer: &mut impl Write) -> io::Result<()> {
    if let Ok(length) = plan_text::plan_output(text, out) {
        if let Some(output) = out.get(..length as usize) {
            writer.write_all(output)?;
        }
    }
    Ok(())
}

fn main(rt: HostRuntime) -> io::Result<()> {
    let mut text = input_buffer();
    let mut out = output_buffer();
    let n = read_full(&mut rt.reader(), &mut text)?;
    answer(&text[..n], &mut out, &mut io::writer(&rt))
}
