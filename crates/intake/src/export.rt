// The call that C makes, through the crate intake_c.
ghost use Rattle.intake.specs.Answering.{call_answer, memory_after, told_in_c};
ghost use Rattle.intake.specs.Yields.{YieldsInC};
ghost use Rattle.std.specs.Prelude.{◌≡◌, pos, ◌≤ℤ◌};
ghost use Rattle.terms.specs.Limits.{answer_memory};

use crate::answer::answer_text;

/// Writes the answer to a text, and returns how many bytes these are, or minus the number of the refusal: -36 or -37.
// Kept: the C interface: C is told one number, a count or a refusal below 0.
pub fn dolzhivar_margin(text: &[u8], answer: &mut [u8]) -> i64
    ensures told { result ≡ told_in_c (call_answer text.now answer.old) }
    ensures memory { answer.new ≡ memory_after text.now answer.old }
    ensures size { result ≤ℤ pos answer_memory }
    ensures yields { YieldsInC text.now answer.old result answer.new }
{
    match answer_text(text, answer) {
        Ok(count) => count as i64,
        Err(fault) => -i64::from(u8::from(fault.refusal)),
    }
}
