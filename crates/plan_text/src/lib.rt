// The text of a plan: who sends which trees to whom.
#![tactic(auto)]

ghost use Rattle.std.specs.Prelude.{◌≡◌};
ghost use Rattle.encoding.specs.Refusals.{length_of};
ghost use Rattle.plan_text.specs.Plan.{plan_answer, plan_output_answer};

use buffers::plan_in;
use encoding::refusal::Refusal;
use plan_write::output::write_refused;

mod buffers;

// The plan of an input (1, 2, 3, 4), written into the lent buffer if it fits (22).
pub fn plan(text: &[u8], out: &mut [u8]) -> Result<u64, Refusal>
    ensures { (length_of result, out.new) ≡ plan_answer text.now out.old }
{
    let mut old = [0u8; 8200];
    let mut new = [0u8; 8200];
    plan_in(text, &mut old, &mut new, &mut *out)
}

// The whole output of the program: the plan of an input, or the line that says why it is refused, written into the lent buffer if it fits (22).
pub fn plan_output(text: &[u8], out: &mut [u8]) -> Result<u64, Refusal>
    ensures { (length_of result, out.new) ≡ plan_output_answer text.now out.old }
{
    match plan(text, &mut *out) {
        Ok(length) => Ok(length),
        Err(refusal) => match refusal {
            Refusal::Buffer => Err(refusal),
            _ => write_refused(refusal, &mut *out),
        },
    }
}
