// The intake of a text, line by line.
ghost use Rattle.entries.specs.Desks.{empty_desk, nothing_taken};
ghost use Rattle.entries.specs.Intakes.{TakesLine, desk_of};
ghost use Rattle.std.specs.Prelude.{◌≡◌};

use crate::fields::{add_class, add_pair, add_security, book};
use books::table::NetTable;
use lines::frame_line::FrameLine;
use lines::part::Part;
use sheets::draft::Draft;
use terms::fault::Fault;
use terms::refusal::Refusal;

/// The rows of the sheet come first, then the bookings.
// Kept: a rule of the project: the intake matches on its stage and the kind of line at once, so that a stage is a value, and
// not a type of intake with a `take` of its own.
#[derive(Clone, Copy)]
pub enum Stage {
    Rows,
    Bookings,
}

/// What the lines taken so far make up.
#[derive(Drop)]
pub struct Intake {
    pub stage: Stage,
    pub draft: Draft,
    pub book: NetTable,
}

impl Intake {
    /// No line is taken yet.
    pub fn open() -> Self
        ensures { desk_of result ≡ nothing_taken }
    {
        Intake::empty(Stage::Rows)
    }

    // No row and no booking, at this stage.
    fn empty(stage: Stage) -> Self
        ensures { desk_of result ≡ empty_desk stage }
    {
        Intake {
            stage,
            draft: Draft::new(),
            book: NetTable::open(),
        }
    }

    /// Takes one line. A refused line changes nothing.
    pub fn take(&mut self, line: Part<'_>) -> Result<(), Fault>
        ensures { TakesLine self.old line.entry.digits.now result self.new }
    {
        let frame = FrameLine::try_from(line)?;
        match (&mut self.stage, frame) {
            (stage, FrameLine::Booking(part)) => {
                book(&mut self.book, part.digits)?;
                *stage = Stage::Bookings;
                Ok(())
            }
            (Stage::Rows, FrameLine::Class(part)) => add_class(&mut self.draft, part.digits),
            (Stage::Rows, FrameLine::Security(part)) => add_security(&mut self.draft, part.digits),
            (Stage::Rows, FrameLine::Pair(part)) => add_pair(&mut self.draft, part.digits),
            _ => Err(Refusal::LineOutOfOrder.at(0)),
        }
    }
}
