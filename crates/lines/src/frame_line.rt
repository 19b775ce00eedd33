// A line that is a frame, told by its kind.
ghost use Rattle.std.specs.Prelude.{◌≡◌};
ghost use Rattle.terms.specs.Refusals.{answer_at};
ghost use Rattle.frames.specs.Frames.{fields_refusal};
ghost use Rattle.lines.specs.FrameLines.{Tells, TellsKind, kind_of, named_kind};

use crate::part::{Fields, Part};
use frames::codec::{check, split};
use frames::frame::Frame;
use frames::kinds::{
    BookingFrame, ClassFrame, DepositFrame, FaultFrame, PairFrame, SecurityFrame, TotalFrame,
};
use terms::fault::Fault;
use terms::refusal::Refusal;

/// A kind of frame, by its name.
#[derive(Clone, Copy, PartialEq, Eq)]
pub enum FrameKind {
    Class,
    Security,
    Pair,
    Booking,
    Deposit,
    Total,
    Fault,
}

/// Each holds the digits of the fields, and the place of the line in the text.
// Kept: a rule of the project: one case a kind of frame, each with its part of the text and its place.
#[derive(Clone, Copy)]
pub enum FrameLine<'a> {
    Class(Fields<'a>),
    Security(Fields<'a>),
    Pair(Fields<'a>),
    Booking(Fields<'a>),
    Deposit(Fields<'a>),
    Total(Fields<'a>),
    Fault(Fields<'a>),
}

// The frame, if the fields are those of its kind.
fn checked<'a, F: Frame>(frame: FrameLine<'a>, fields: &[u8]) -> Result<FrameLine<'a>, Fault>
    ensures { result ≡ answer_at 0 frame.entry (fields_refusal F.kind fields.now) }
{
    check::<F>(fields)?;
    Ok(frame)
}

// The frame of this kind with these fields.
fn of_kind<'a>(kind: u8, part: Fields<'a>) -> Result<FrameLine<'a>, Fault>
    ensures { TellsKind kind part.entry result }
{
    let fields = part.digits.text;
    match kind {
        ClassFrame::KIND => checked::<ClassFrame>(FrameLine::Class(part), fields),
        SecurityFrame::KIND => checked::<SecurityFrame>(FrameLine::Security(part), fields),
        PairFrame::KIND => checked::<PairFrame>(FrameLine::Pair(part), fields),
        BookingFrame::KIND => checked::<BookingFrame>(FrameLine::Booking(part), fields),
        DepositFrame::KIND => checked::<DepositFrame>(FrameLine::Deposit(part), fields),
        TotalFrame::KIND => checked::<TotalFrame>(FrameLine::Total(part), fields),
        FaultFrame::KIND => checked::<FaultFrame>(FrameLine::Fault(part), fields),
        _ => Err(Refusal::UnknownKind.at(0)),
    }
}

impl FrameLine<'_> {
    /// Its kind.
    pub fn kind(&self) -> FrameKind
        ensures { named_kind result ≡ kind_of self.now }
    {
        match self {
            FrameLine::Class(_) => FrameKind::Class,
            FrameLine::Security(_) => FrameKind::Security,
            FrameLine::Pair(_) => FrameKind::Pair,
            FrameLine::Booking(_) => FrameKind::Booking,
            FrameLine::Deposit(_) => FrameKind::Deposit,
            FrameLine::Total(_) => FrameKind::Total,
            FrameLine::Fault(_) => FrameKind::Fault,
        }
    }
}

impl<'a> TryFrom<Part<'a>> for FrameLine<'a> {
    type Error = Fault;

    ghost try_from_gives = { λ line result. Tells line.digits.now line.place result };

    // The frame of a line, or the first question that the line answers with no.
    fn try_from(line: Part<'a>) -> Result<FrameLine<'a>, Fault> {
        let (kind, digits) = split(line.digits)?;
        let place = line.place;
        of_kind(kind, Fields { digits, place })
    }
}
