// A deposit beside the exact margin.
ghost use Rattle.std.specs.Prelude.{◌≡◌, ◌^◌, ◌≤◌};
ghost use Rattle.lists.specs.Lists.{lender};
ghost use Rattle.measures.specs.Measures.{Measures, gap_of};

use crate::record::Measure;
use books::book::Positions;
use deposits::deposit::deposit;
use deposits::records::{ClassMargin, Match};
use exact::margin::exact_margin;
use lists::list::List;
use rules::laws::accuracy_bound;
use sheets::sheet::Sheet;
use terms::fault::Fault;
use terms::money::Grosz;

// A grosz in 10^-19 zloty.
const GROSZ: i128 = 100_000_000_000_000_000;

// How far a deposit and an exact margin are apart, in 10^-19 zloty.
fn distance(deposit: Grosz, exact: i128) -> u128
    requires { gap_of deposit exact ≤ 2 ^ 126 }
    ensures { result ≡ gap_of deposit exact }
{
    (deposit.grosz() as i128 * GROSZ - exact).unsigned_abs()
}

/// The deposit of the portfolio in `book`, by the rates of `sheet`, its exact margin, and the gap between them, which is no larger
/// than the bound. Class places and the match list are filled as by a deposit.
// Kept: a rule of the project: class results are a borrowed slice and matches a list, two memories that are handed in.
pub fn measured<P: Positions, S: Sheet>(
    book: &P,
    sheet: &S,
    classes: &mut [ClassMargin],
    matches: &mut List<'_, Match>,
) -> Result<Measure, Fault>
    ensures lender { lender matches.new ≡ lender matches.old }
    ensures measures { Measures (S.Sheet.rows sheet.now) (P.Positions.nets book.now) classes.old matches.old classes.new matches.new result }
{
    let summary = deposit(book, sheet, classes, matches)?;
    let exact = exact_margin(book, sheet)?;
    Ok(Measure {
        summary,
        exact,
        gap: distance(summary.dspan, exact),
        bound: accuracy_bound(summary.classes, summary.securities, summary.pairs),
    })
}
