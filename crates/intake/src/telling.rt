// The answer of a program, which has no other way to tell that a text is too long.
ghost use Rattle.std.specs.Prelude.{◌≡◌, ◌≤◌, IfOk};
ghost use Rattle.intake.specs.Answering.{tell_answer, tell_memory};
ghost use Rattle.intake.specs.Yields.{TellsMargin};
ghost use Rattle.terms.specs.Limits.{answer_memory};

use crate::answer::MEMORY_TOO_SHORT;
use crate::settling::write_answer;
use terms::fault::Fault;
use terms::limits::ANSWER_MEMORY;

/// Writes the answer to a text at the front of `answer`, and tells how many bytes these are. A text that is too long is
/// answered with the frame of its refusal, which has no line. An answer memory that is too short is refused.
// Kept: no plainer: it answers as the call for C does, whose clauses it shares.
pub fn tell_text(text: &[u8], answer: &mut [u8]) -> Result<usize, Fault>
    ensures told { result ≡ tell_answer text.now answer.old }
    ensures memory { answer.new ≡ tell_memory text.now answer.old }
    ensures size { IfOk result (λ count. count ≤ answer_memory) }
    ensures yields { TellsMargin text.now answer.old result answer.new }
{
    let front = answer
        .first_chunk_mut::<ANSWER_MEMORY>()
        .ok_or(MEMORY_TOO_SHORT)?;
    Ok(write_answer(text, front))
}
