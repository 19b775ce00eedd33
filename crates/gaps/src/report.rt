// What is said of a text.
ghost use Rattle.entries.specs.Intakes.{table_nets};
ghost use Rattle.gaps.specs.Lines.{deposit_refused, text_refused, what_is_refused_lem};
ghost use Rattle.gaps.specs.Reports.{measured_lines, portfolio_lines, report_lines};
ghost use Rattle.sheets.specs.Sheets.{sheet_rows};
ghost use Rattle.std.specs.Fmt.{DisplaysOnOk};
ghost use Rattle.std.specs.Prelude.{◌≡◌, Some, length};
ghost use Rattle.lists.specs.Lists.{items, memory};
ghost use Rattle.terms.specs.Limits.{class_count, pair_limit};

use crate::spoken::say_measure;
use books::table::NetTable;
use deposits::records::{ClassMargin, Match};
use entries::intake::Intake;
use entries::line_fault::LineFault;
use entries::text::take_text;
use lists::list::List;
use measures::measure::measured;
use measures::record::Measure;
use sheets::rate_sheet::RateSheet;
use std::fmt;
use terms::fault::Fault;
use terms::limits::{CLASSES, PAIRS};

/// A text, shown as what its lines come to, or as why the text or one of its lines is refused.
#[derive(Clone, Copy)]
pub struct Report<'a>(pub &'a [u8]);

// Says why a deposit is refused.
fn say_refused_deposit<W: fmt::Write>(f: &mut fmt::Formatter<W>, fault: Fault) -> fmt::Result
    ensures { DisplaysOnOk W.write_str_gives f.old result (Some (deposit_refused fault)) f.new }
{
    let refused = LineFault::from(fault);
    writeln!(f, "The deposit is refused.")?;
    writeln!(f, "{refused}.")
}

// Says what is measured, or why the deposit is refused.
#[tactic(auto, unfolding(crate::specs::Reports::measured_lines))]
fn say_measured<W: fmt::Write>(
    f: &mut fmt::Formatter<W>,
    measure: Result<Measure, Fault>,
    classes: &[ClassMargin],
    matches: &[Match],
) -> fmt::Result
    ensures { DisplaysOnOk W.write_str_gives f.old result (Some (measured_lines measure classes.now matches.now)) f.new }
{
    match measure {
        Ok(measure) => say_measure(f, &measure, classes, matches),
        Err(fault) => say_refused_deposit(f, fault),
    }
}

// Measures the deposit of a book, where there is room for its answer.
#[tactic(auto, using(crate::proofs::Portfolios::told))]
fn measure(
    book: &NetTable,
    sheet: &RateSheet,
    classes: &mut [ClassMargin],
    matches: &mut List<'_, Match>,
) -> Result<Measure, Fault>
    requires classes { length classes.old ≡ class_count }
    requires matches { length (memory matches.old) ≡ pair_limit }
    ensures { measured_lines result classes.new (items matches.new) ≡ portfolio_lines (sheet_rows sheet.now) (table_nets book.now) }
{
    measured(book, sheet, classes, matches)
}

// Says the deposit of a book and its exact margin, or why the deposit is refused.
#[tactic(auto, using(crate::proofs::Portfolios::said_as))]
fn say_portfolio<W: fmt::Write>(
    f: &mut fmt::Formatter<W>,
    book: &NetTable,
    sheet: &RateSheet,
) -> fmt::Result
    ensures { DisplaysOnOk W.write_str_gives f.old result (Some (portfolio_lines (sheet_rows sheet.now) (table_nets book.now))) f.new }
{
    let mut classes = [ClassMargin::NONE; CLASSES];
    let mut places = [Match::NONE; PAIRS];
    let mut matches = List::over(&mut places);
    let measure = measure(book, sheet, &mut classes, &mut matches);
    say_measured(f, measure, &classes, matches.records())
}

// What is refused.
// Kept: a rule of the project: line 0 where there is none, as LineFault says.
fn what_is_refused(line: u32) -> &'static str
    ensures { result.now ≡ what_is_refused_lem line }
{
    match line {
        0 => "The text is refused.",
        _ => "A line is refused, and nothing is worked out.",
    }
}

// Says why a text or one of its lines is refused.
fn say_refused<W: fmt::Write>(f: &mut fmt::Formatter<W>, refused: LineFault) -> fmt::Result
    ensures { DisplaysOnOk W.write_str_gives f.old result (Some (text_refused refused)) f.new }
{
    let what = what_is_refused(refused.line);
    writeln!(f, "{what}")?;
    writeln!(f, "{refused}.")
}

impl fmt::Display for Report<'_> {
    ghost output = { λ report. Some (report_lines report.0.now) };

    fn fmt<W: fmt::Write>(&self, f: &mut fmt::Formatter<W>) -> fmt::Result {
        match take_text(self.0) {
            Ok(Intake { draft, book, .. }) => say_portfolio(f, &book, &draft.put_in_force()),
            Err(refused) => say_refused(f, refused),
        }
    }
}
