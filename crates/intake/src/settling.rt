// The deposit of what an intake holds, as it is answered.
ghost use Rattle.std.specs.Prelude.{◌≤◌};
ghost use Rattle.entries.specs.Intakes.{table_nets};
ghost use Rattle.intake.specs.Answering.{deposit_lines, told_lines};
ghost use Rattle.intake.specs.Filling.{Fills};
ghost use Rattle.positions.specs.Questions.{portfolio_fault};
ghost use Rattle.sheets.specs.Sheets.{sheet_rows};
ghost use Rattle.terms.specs.Limits.{answer_memory};

use crate::writing::{write_deposit, write_fault};
use books::table::NetTable;
use deposits::deposit::deposit;
use deposits::records::{ClassMargin, Match};
use entries::intake::Intake;
use entries::line_fault::LineFault;
use entries::text::take_text;
use lists::list::List;
use sheets::rate_sheet::RateSheet;
use terms::limits::{ANSWER_MEMORY, CLASSES, PAIRS};

// Writes the frames of the deposit, or the one frame of why it is refused, which has no line.
fn settle(book: &NetTable, sheet: &RateSheet, answer: &mut [u8; ANSWER_MEMORY]) -> usize
    ensures fills { Fills (deposit_lines (portfolio_fault (sheet_rows sheet.now) (table_nets book.now)) (sheet_rows sheet.now) (table_nets book.now)) answer.old result answer.new }
{
    let mut classes = [ClassMargin::NONE; CLASSES];
    let mut places = [Match::NONE; PAIRS];
    let mut matches = List::over(&mut places);
    match deposit(book, sheet, &mut classes, &mut matches) {
        Ok(summary) => write_deposit(&classes, summary, answer),
        // Kept: no plainer: with `into` this arm would need a proof file, which it does without.
        Err(fault) => write_fault(LineFault { line: 0, fault }, answer),
    }
}

// Writes the answer to a text: its own fault or that of its first refused line, or what its deposit gives.
#[tactic(auto, using(crate::proofs::Memories::fits))]
pub(crate) fn write_answer(text: &[u8], answer: &mut [u8; ANSWER_MEMORY]) -> usize
    ensures fills { Fills (told_lines text.now) answer.old result answer.new }
    ensures size { result ≤ answer_memory }
{
    match take_text(text) {
        Ok(Intake { draft, book, .. }) => settle(&book, &draft.put_in_force(), answer),
        Err(refused) => write_fault(refused, answer),
    }
}
