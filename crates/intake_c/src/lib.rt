// The call that C makes: a static library over the intake.
#![tactic(auto)]

ghost use Rattle.intake.specs.Answering.{call_answer, memory_after, told_in_c};
ghost use Rattle.intake.specs.Yields.{YieldsInC};
ghost use Rattle.std.specs.Prelude.{◌≡◌, pos, ◌≤ℤ◌};
ghost use Rattle.terms.specs.Limits.{answer_memory};

use intake::export;

/// Writes the answer to a text, and returns how many bytes these are, or minus the number of the refusal: -36 or -37.
// Kept: the C interface: a static library is a crate of its own, and the function of intake that it calls is public.
#[tactic(auto, using(intake::proofs::Yielding::told_on))]
#[unsafe(no_mangle)]
pub extern "C" fn dolzhivar_margin(text: &[u8], answer: &mut [u8]) -> i64
    ensures told { result ≡ told_in_c (call_answer text.now answer.old) }
    ensures memory { answer.new ≡ memory_after text.now answer.old }
    ensures size { result ≤ℤ pos answer_memory }
    ensures yields { YieldsInC text.now answer.old result answer.new }
{
    export::dolzhivar_margin(text, answer)
}
