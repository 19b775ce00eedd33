// What a line is, by its kind.
ghost use Rattle.std.specs.Prelude.{◌≡◌, ◌==◌};
ghost use Rattle.inspections.specs.Counts.{line_byte, told_byte};

use lines::frame_line::{FrameKind, FrameLine};
use lines::part::Part;

/// What a line is told as; none where it is refused.
#[tactic(auto, using(crate::proofs::Bytes::told_frame))]
pub fn told_as(line: Part<'_>) -> Option<FrameKind>
    ensures { told_byte result ≡ line_byte line.entry.digits.now }
{
    match FrameLine::try_from(line) {
        Ok(frame) => Some(frame.kind()),
        Err(_) => None,
    }
}

/// Whether a line is told as `sought`.
pub fn is_told_as(line: Part<'_>, sought: Option<FrameKind>) -> bool
    ensures { result ≡ (line_byte line.entry.digits.now == told_byte sought) }
{
    told_as(line) == sought
}
