// A text as a whole.
ghost use Rattle.std.specs.Prelude.{◌≡◌};
ghost use Rattle.lines.specs.Texts.{length_answer};

use terms::fault::Fault;
use terms::limits::TEXT_LIMIT;
use terms::refusal::Refusal;

/// Whether a text is short enough to be read.
pub fn check_length(text: &[u8]) -> Result<(), Fault>
    ensures { result ≡ length_answer text.now }
{
    if text.len() > TEXT_LIMIT {
        return Err(Refusal::TextTooLong.at(0));
    }
    Ok(())
}
