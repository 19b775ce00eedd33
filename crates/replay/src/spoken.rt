// Desks, orders and what they gave, in plain words and zloty.
ghost use Rattle.replay.specs.Days.{answers_in};
ghost use Rattle.replay.specs.Words.{answer_lines, answers_lines, booking_words, buy_or_sell, day_lines, desk_words, entry_lines, order_words, outcome_lines, passed_over, refused_line, setting_words, unmade_lines};
ghost use Rattle.std.specs.Prelude.{◌≡◌, Some};
ghost use Rattle.std.specs.Option.{option_copied};

use crate::answer::{Answers, Outcome, Unmade};
use crate::kept::KeptLine;
use crate::order::{Desk, Order, PassedOver};
use crate::told::TellingLines;
use books::book::Book;
use books::booking::Booking;
use histories::step::Entry;
use std::fmt;
use surcharges::setting::Setting;
use terms::fault::Fault;
use wording::units::Percent;

// A desk, and what it is opened over.
impl fmt::Display for Desk {
    ghost output = { λ desk. Some (desk_words desk) };

    fn fmt<W: fmt::Write>(&self, f: &mut fmt::Formatter<W>) -> fmt::Result {
        f.write_str(match self {
            Desk::Rates => "Desk over the rates of January 2020: a trial layer above a net table.",
            Desk::Pairs =>
                "Desk over a sheet with pairs, under a surcharge: two trial layers above a net table.",
            Desk::Journal => "Desk over the rates of January 2020: a journal.",
            Desk::Layered => "Desk over the rates of January 2020: a trial layer above a journal.",
            Desk::Stacked =>
                "Desk over a sheet with pairs, under a surcharge above one of 1% on y of class 0: a trial layer above a lent net table.",
        })
    }
}

// Kept: these two words are a dealer's, said of a signed quantity, which has no `Side` beside it.
fn buy_or_sell_of(quantity: i64) -> &'static str
    ensures { result.now ≡ buy_or_sell quantity }
{
    if quantity < 0 { "sell" } else { "buy" }
}

// A booking, as a dealer says it.
#[derive(Clone, Copy)]
struct BookingWords(Booking);

impl fmt::Display for BookingWords {
    ghost output = { λ words. Some (booking_words words.0) };

    fn fmt<W: fmt::Write>(&self, f: &mut fmt::Formatter<W>) -> fmt::Result {
        let Booking { security, quantity } = self.0;
        let side = buy_or_sell_of(quantity);
        let units = quantity.unsigned_abs();
        write!(f, "{side} {units} of security {security}")
    }
}

// What a surcharge is set to.
#[derive(Clone, Copy)]
struct SettingWords(Setting);

impl fmt::Display for SettingWords {
    ghost output = { λ words. Some (setting_words words.0) };

    fn fmt<W: fmt::Write>(&self, f: &mut fmt::Formatter<W>) -> fmt::Result {
        let Setting { class, addition } = self.0;
        let y = Percent(addition.y);
        let x = Percent(addition.x);
        write!(f, "add {y} to y and {x} to x of class {class}")
    }
}

// A call, as a dealer says it.
impl fmt::Display for Order {
    ghost output = { λ order. Some (order_words order) };

    #[tactic(auto, unfolding(crate::specs::Words::order_words))]
    fn fmt<W: fmt::Write>(&self, f: &mut fmt::Formatter<W>) -> fmt::Result {
        match *self {
            Order::Book(booking) => BookingWords(booking).fmt(f),
            Order::Commit => f.write_str("commit"),
            Order::Drop => f.write_str("drop the trial"),
            Order::Deposit { .. } => f.write_str("deposit"),
            Order::Surcharge(setting) => SettingWords(setting).fmt(f),
        }
    }
}

impl fmt::Display for PassedOver {
    ghost output = { λ passed. Some (passed_over passed) };

    fn fmt<W: fmt::Write>(&self, f: &mut fmt::Formatter<W>) -> fmt::Result {
        match *self {
            PassedOver::NoDeskCan { line, order } => {
                write!(f, "line {line} is passed over: no open desk can {order}")
            }
            PassedOver::NotUnderstood { line } => {
                write!(f, "line {line} is passed over: it is not understood")
            }
        }
    }
}

// Why a call was refused.
#[derive(Clone, Copy)]
struct RefusedLine(Fault);

impl fmt::Display for RefusedLine {
    ghost output = { λ line. Some (refused_line line.0) };

    fn fmt<W: fmt::Write>(&self, f: &mut fmt::Formatter<W>) -> fmt::Result {
        let fault = self.0;
        writeln!(f, "  refused: {fault}")
    }
}

// What a call gave.
#[derive(Clone, Copy)]
struct EntryLines<'a>(&'a Entry);

impl fmt::Display for EntryLines<'_> {
    ghost output = { λ lines. Some (entry_lines lines.0.now) };

    fn fmt<W: fmt::Write>(&self, f: &mut fmt::Formatter<W>) -> fmt::Result {
        match self.0 {
            Entry::Done(Ok(())) => writeln!(f, "  done"),
            Entry::Told(Ok(telling)) => TellingLines(telling).fmt(f),
            Entry::Done(Err(fault)) | Entry::Told(Err(fault)) => RefusedLine(*fault).fmt(f),
        }
    }
}

// An order, and below it what its call gave, if there is an entry for it.
#[derive(Clone, Copy)]
struct AnswerLines<'a>(&'a Order, Option<&'a Entry>);

impl fmt::Display for AnswerLines<'_> {
    ghost output = { λ lines. Some (answer_lines lines.0.now (option_copied lines.1)) };

    #[tactic(auto, unfolding(crate::specs::Words::answer_lines))]
    fn fmt<W: fmt::Write>(&self, f: &mut fmt::Formatter<W>) -> fmt::Result {
        match self.1 {
            Some(entry) => {
                let order = *self.0;
                writeln!(f, "{order}")?;
                EntryLines(entry).fmt(f)
            }
            None => Ok(()),
        }
    }
}

// All answers of a desk, in their order.
#[derive(Clone, Copy)]
struct AnswersLines<'a>(&'a Answers<'a, 'a>);

impl fmt::Display for AnswersLines<'_> {
    ghost output = { λ lines. Some (answers_lines (answers_in lines.0.now)) };

    fn fmt<W: fmt::Write>(&self, f: &mut fmt::Formatter<W>) -> fmt::Result {
        // Kept: no plainer: of a `zip` the proof knows its items by their number alone, so that the entry is asked for by its place.
        for (place, order) in self.0.orders.iter().enumerate() {
            AnswerLines(order, self.0.entry(place)).fmt(f)?;
        }
        Ok(())
    }
}

// Why no call was made.
impl fmt::Display for Unmade {
    ghost output = { λ unmade. Some (unmade_lines unmade) };

    fn fmt<W: fmt::Write>(&self, f: &mut fmt::Formatter<W>) -> fmt::Result {
        writeln!(f, "no call is made")?;
        match *self {
            Unmade::Refused(fault) => RefusedLine(fault).fmt(f),
            Unmade::NoCall(order) => writeln!(f, "  this desk has no call to {order}"),
        }
    }
}

// The answers of a desk, or why no call was made.
#[derive(Clone, Copy)]
struct OutcomeLines<'a>(&'a Outcome<'a, 'a>);

impl fmt::Display for OutcomeLines<'_> {
    ghost output = { λ lines. Some (outcome_lines lines.0.now) };

    fn fmt<W: fmt::Write>(&self, f: &mut fmt::Formatter<W>) -> fmt::Result {
        match self.0 {
            Ok(answers) => AnswersLines(answers).fmt(f),
            Err(unmade) => unmade.fmt(f),
        }
    }
}

// The day of a desk: its answers, and what is kept beneath after them.
#[derive(Drop)]
pub(crate) struct DayLines<'a, B: Book> {
    pub(crate) outcome: &'a Outcome<'a, 'a>,
    pub(crate) beneath: &'a B,
}

impl<B: Book + Drop> fmt::Display for DayLines<'_, B> {
    ghost output = { λ day. Some (day_lines day.outcome.now (B.Positions.nets day.beneath.now) (B.Book.meaning.account day.beneath.now).left) };

    fn fmt<W: fmt::Write>(&self, f: &mut fmt::Formatter<W>) -> fmt::Result {
        let outcome = OutcomeLines(self.outcome);
        let kept = KeptLine(self.beneath);
        write!(f, "{outcome}{kept}")
    }
}
