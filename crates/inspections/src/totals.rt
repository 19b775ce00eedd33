// How many lines of a text are frames of each kind.
ghost use Rattle.std.specs.Prelude.{◌≡◌, length};
ghost use Rattle.lines.specs.Lines.{lines_of};
ghost use Rattle.inspections.specs.Counts.{count_of, told_byte};
ghost use Rattle.inspections.specs.Sums.{Counted};

use crate::told::is_told_as;
use lines::frame_line::FrameKind;
use lines::reader::LineReader;

#[derive(Clone, Copy)]
pub struct Totals {
    pub lines: usize,
    pub classes: usize,
    pub securities: usize,
    pub pairs: usize,
    pub bookings: usize,
    pub deposits: usize,
    pub totals: usize,
    pub faults: usize,
    pub refused: usize,
}

// How many lines are told as `sought`, and how many are refused where it is none.
#[tactic(auto, using(crate::proofs::Bytes::run_of_lines))]
fn count(text: &[u8], sought: Option<FrameKind>) -> usize
    ensures { result ≡ count_of (told_byte sought) (lines_of text.now) }
{
    LineReader::new(text)
        .filter(|line| is_told_as(*line, sought))
        .count()
}

// How many lines there are.
#[tactic(auto, using(crate::proofs::Bytes::run_of_lines))]
fn count_lines(text: &[u8]) -> usize
    ensures { result ≡ length (lines_of text.now) }
{
    LineReader::new(text).count()
}

/// The counts of a text, by kind. They add up to its lines.
#[tactic(auto, using(crate::proofs::Bytes::counted_once))]
pub fn count_all(text: &[u8]) -> Totals
    ensures { Counted (lines_of text.now) result }
{
    Totals {
        lines: count_lines(text),
        classes: count(text, Some(FrameKind::Class)),
        securities: count(text, Some(FrameKind::Security)),
        pairs: count(text, Some(FrameKind::Pair)),
        bookings: count(text, Some(FrameKind::Booking)),
        deposits: count(text, Some(FrameKind::Deposit)),
        totals: count(text, Some(FrameKind::Total)),
        faults: count(text, Some(FrameKind::Fault)),
        refused: count(text, None),
    }
}
