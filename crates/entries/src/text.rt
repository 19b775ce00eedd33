// The lines of a text, taken in their order.
ghost use Rattle.entries.specs.Desks.{nothing_taken};
ghost use Rattle.entries.specs.Reading.{ReadsTo, after_lines, after_text};
ghost use Rattle.lines.specs.Lines.{lines_of};
ghost use Rattle.std.specs.Prelude.{◌≤◌, length};
ghost use Rattle.terms.specs.Limits.{text_limit};

use crate::intake::Intake;
use crate::line_fault::LineFault;
use lines::reader::LineReader;
use lines::text::check_length;

// Takes the lines of a text, numbered from 1.
fn take_lines(text: &[u8]) -> Result<Intake, LineFault>
    requires { length text.now ≤ text_limit }
    ensures { ReadsTo (after_lines 1 nothing_taken (lines_of text.now)) result }
{
    let mut intake = Intake::open();
    for (line, part) in (1..).zip(LineReader::new(text)) {
        intake
            .take(part)
            .map_err(|fault| LineFault { line, fault })?;
    }
    Ok(intake)
}

/// Takes the lines of a text, up to the first that is refused. A text that is too long is refused as a whole, with no line.
pub fn take_text(text: &[u8]) -> Result<Intake, LineFault>
    ensures { ReadsTo (after_text text.now) result }
{
    check_length(text)?;
    take_lines(text)
}
