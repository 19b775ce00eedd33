// The deposit of a portfolio.
ghost use Rattle.std.specs.Prelude.{◌≡◌};
ghost use Rattle.deposits.specs.Deposits.{Deposits, Upholds};
ghost use Rattle.lists.specs.Lists.{lender};

use crate::records::{ClassMargin, Match, Summary};
use crate::settle::settle;
use books::book::Positions;
use lists::list::List;
use positions::portfolio::Portfolio;
use sheets::sheet::Sheet;
use terms::fault::Fault;
use terms::limits::{CLASSES, PAIRS};
use terms::refusal::Refusal;

/// The deposit of the portfolio in `book`, by the rates of `sheet`: one record a class in the first places of `classes`,
/// and one match a pair in `matches`, which is cleared first. Nothing is written before the last question is answered.
// Kept: a rule of the project: class results are a borrowed slice and matches a list, two memories that are handed in.
// Kept: a book and a sheet are what a deposit is of, each of a type of its own; a struct of the two would be taken apart at once.
pub fn deposit<P: Positions, S: Sheet>(
    book: &P,
    sheet: &S,
    classes: &mut [ClassMargin],
    matches: &mut List<'_, Match>,
) -> Result<Summary, Fault>
    ensures lender { lender matches.new ≡ lender matches.old }
    ensures deposits { Deposits (S.Sheet.rows sheet.now) (P.Positions.nets book.now) classes.old matches.old classes.new matches.new result }
    ensures upholds { Upholds (S.Sheet.rows sheet.now) (P.Positions.nets book.now) classes.new matches.new result }
{
    // The memory is asked for before any security is.
    if matches.room() < PAIRS || classes.len() < CLASSES {
        return Err(Refusal::TooFewPlaces.at(0));
    }
    let portfolio = Portfolio::value(book, sheet)?;
    settle(sheet, &portfolio.class_sums(), classes, matches)
}
