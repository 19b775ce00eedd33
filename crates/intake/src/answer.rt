// The answer to a whole text.
ghost use Rattle.std.specs.Prelude.{◌≡◌, ◌≤◌, IfOk};
ghost use Rattle.intake.specs.Answering.{call_answer, memory_after};
ghost use Rattle.intake.specs.Yields.{YieldsMargin};
ghost use Rattle.terms.specs.Limits.{answer_memory};

use crate::settling::write_answer;
use lines::text::check_length;
use terms::fault::Fault;
use terms::layer::Layer;
use terms::limits::ANSWER_MEMORY;
use terms::refusal::Refusal;

// The refusal where there is no room for the longest answer.
pub(crate) const MEMORY_TOO_SHORT: Fault = Fault {
    refusal: Refusal::AnswerMemoryTooShort,
    layer: Layer::WholeText,
    place: 0,
};

/// Writes the answer to a text at the front of `answer`, and tells how many bytes these are: the frames of the deposit, or
/// that of the first refusal. A memory that is too short and a text that is too long are refused, and nothing is written.
pub fn answer_text(text: &[u8], answer: &mut [u8]) -> Result<usize, Fault>
    ensures told { result ≡ call_answer text.now answer.old }
    ensures memory { answer.new ≡ memory_after text.now answer.old }
    ensures size { IfOk result (λ count. count ≤ answer_memory) }
    ensures yields { YieldsMargin text.now answer.old result answer.new }
{
    let front = answer
        .first_chunk_mut::<ANSWER_MEMORY>()
        .ok_or(MEMORY_TOO_SHORT)?;
    check_length(text)?;
    Ok(write_answer(text, front))
}
