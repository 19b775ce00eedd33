// The exact margin of a portfolio.
ghost use Rattle.exact.specs.Margins.{Margins};
ghost use Rattle.rules.specs.Margin.{AmountsSmall, DSPAN, exact};
ghost use Rattle.std.specs.Prelude.{◌≡◌};

use crate::open::open_classes;
use crate::sums::class_sums;
use crate::total::total;
use books::book::Positions;
use positions::portfolio::Portfolio;
use sheets::sheet::Sheet;
use spreads::walk::walk;
use terms::fault::Fault;

// The exact margin, where no amount is too large.
fn settle<P: Positions, S: Sheet>(book: &P, sheet: &S) -> i128
    requires { AmountsSmall (S.Sheet.rows sheet.now) (P.Positions.nets book.now) }
    ensures { result ≡ DSPAN exact (S.Sheet.rows sheet.now) (P.Positions.nets book.now) }
{
    let mut classes = open_classes(sheet, &class_sums(book, sheet));
    let _ = walk(sheet, &mut classes);
    total(&classes)
}

/// The exact margin of the portfolio in `book`, by the rates of `sheet`, in 10^-19 zloty: the steps of the deposit with no rounding.
/// It is refused where the deposit is, but for the memory that a deposit is handed.
pub fn exact_margin<P: Positions, S: Sheet>(book: &P, sheet: &S) -> Result<i128, Fault>
    ensures { Margins (S.Sheet.rows sheet.now) (P.Positions.nets book.now) result }
{
    // To value the portfolio as a deposit does asks all that there is to ask.
    let _ = Portfolio::value(book, sheet)?;
    Ok(settle(book, sheet))
}
