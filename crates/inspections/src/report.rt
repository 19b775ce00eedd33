// What is said of a text.
ghost use Rattle.inspections.specs.Words.{answers_words, line_words, numbered_line, numbered_lines, numbered_words, report_words, rows_words, totals_words, what_words};
ghost use Rattle.lines.specs.Lines.{lines_of, with_places};
ghost use Rattle.std.specs.Fmt.{DisplaysOnOk};
ghost use Rattle.std.specs.Prelude.{◌≤◌, Some, length};
ghost use Rattle.terms.specs.Limits.{text_limit};
ghost use Rattle.terms.specs.Texts.{fed};

use crate::spoken::{Spoken, Words};
use crate::totals::{Totals, count_all};
use frames::kinds::FaultRecord;
use lines::frame_line::FrameLine;
use lines::part::Part;
use lines::reader::LineReader;
use lines::text::check_length;
use std::fmt;
use terms::fault::Fault;
use terms::refusal::Refusal;

/// A text, shown as what each of its lines is, with the totals, or as why it is refused.
#[derive(Clone, Copy)]
pub struct Report<'a>(pub &'a [u8]);

// A refusal, shown as its number and its words.
#[derive(Clone, Copy)]
struct Numbered(Refusal);

impl fmt::Display for Numbered {
    ghost output = { λ numbered. Some (numbered_words numbered.0) };

    fn fmt<W: fmt::Write>(&self, f: &mut fmt::Formatter<W>) -> fmt::Result {
        let words = self.0;
        let number = u8::from(words);
        write!(f, "{number}: {words}")
    }
}

// A frame, or the fault of a line that is none, shown as what the line is or why it is refused.
#[derive(Clone, Copy)]
struct What<'a>(Result<FrameLine<'a>, Fault>);

impl fmt::Display for What<'_> {
    ghost output = { λ what. Some (what_words what.0) };

    fn fmt<W: fmt::Write>(&self, f: &mut fmt::Formatter<W>) -> fmt::Result {
        match self.0 {
            Ok(frame) => Spoken(frame).fmt(f),
            Err(fault) => {
                let refusal = Numbered(fault.refusal);
                write!(f, "refused with {refusal}")
            }
        }
    }
}

// A line, shown by its number and its place as what it is.
#[derive(Clone, Copy)]
struct NumberedLine<'a> {
    number: usize,
    place: usize,
    what: What<'a>,
}

impl fmt::Display for NumberedLine<'_> {
    ghost output = { λ line. Some (numbered_line line.number line.place (what_words line.what.0)) };

    fn fmt<W: fmt::Write>(&self, f: &mut fmt::Formatter<W>) -> fmt::Result {
        let number = self.number;
        let place = self.place;
        let what = self.what;
        write!(f, "line {number}, byte {place}: {what}")
    }
}

// Says what one line is, or why it is refused.
#[tactic(auto, using(crate::proofs::Saying::line_said))]
fn say_line<W: fmt::Write>(f: &mut fmt::Formatter<W>, number: usize, line: Part<'_>) -> fmt::Result
    ensures { DisplaysOnOk W.write_str_gives f.old result (Some (fed (numbered_line number line.entry.place (line_words line.entry.digits.now)))) f.new }
{
    let place = line.place;
    let what = What(FrameLine::try_from(line));
    let line = NumberedLine {
        number,
        place,
        what,
    };
    writeln!(f, "{line}")
}

// Says the lines of a text, numbered from 1.
fn say_lines<W: fmt::Write>(f: &mut fmt::Formatter<W>, text: &[u8]) -> fmt::Result
    requires { length text.now ≤ text_limit }
    ensures { DisplaysOnOk W.write_str_gives f.old result (Some (numbered_lines 1 (with_places 0 (lines_of text.now)))) f.new }
{
    for (number, line) in (1..).zip(LineReader::new(text)) {
        say_line(f, number, line)?;
    }
    Ok(())
}

// Says how many rows there are.
#[tactic(auto, unfolding(crate::specs::Words::rows_words))]
fn say_rows<W: fmt::Write>(f: &mut fmt::Formatter<W>, totals: &Totals) -> fmt::Result
    ensures { DisplaysOnOk W.write_str_gives f.old result (Some (rows_words totals.now)) f.new }
{
    writeln!(f, "lines: {}", totals.lines)?;
    writeln!(f, "class rows: {}", totals.classes)?;
    writeln!(f, "security rows: {}", totals.securities)?;
    writeln!(f, "pairs: {}", totals.pairs)?;
    writeln!(f, "bookings: {}", totals.bookings)
}

// Says how many answers there are, and how many lines are refused.
#[tactic(auto, unfolding(crate::specs::Words::answers_words))]
fn say_answers<W: fmt::Write>(f: &mut fmt::Formatter<W>, totals: &Totals) -> fmt::Result
    ensures { DisplaysOnOk W.write_str_gives f.old result (Some (answers_words totals.now)) f.new }
{
    writeln!(f, "class deposits: {}", totals.deposits)?;
    writeln!(f, "totals: {}", totals.totals)?;
    writeln!(f, "faults: {}", totals.faults)?;
    writeln!(f, "refused: {}", totals.refused)
}

fn say_totals<W: fmt::Write>(f: &mut fmt::Formatter<W>, totals: &Totals) -> fmt::Result
    ensures { DisplaysOnOk W.write_str_gives f.old result (Some (totals_words totals.now)) f.new }
{
    say_rows(f, totals)?;
    say_answers(f, totals)
}

impl fmt::Display for Report<'_> {
    ghost output = { λ report. Some (report_words report.0.now) };

    #[tactic(auto, using(crate::proofs::Saying::counted_are))]
    fn fmt<W: fmt::Write>(&self, f: &mut fmt::Formatter<W>) -> fmt::Result {
        if let Err(fault) = check_length(self.0) {
            let item = Words(FaultRecord::from(fault));
            return writeln!(f, "{item}");
        }
        say_lines(f, self.0)?;
        say_totals(f, &count_all(self.0))
    }
}
