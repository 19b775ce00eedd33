// Steps 3 to 5 of a deposit: from what the classes sum to, to what is told.
ghost use Rattle.std.specs.Prelude.{◌≡◌, ◌≤◌, length};
ghost use Rattle.deposits.specs.Deposits.{Balanced, Deposited, Settles};
ghost use Rattle.lists.specs.Lists.{lender, memory};
ghost use Rattle.positions.specs.Sums.{exposure_in};
ghost use Rattle.terms.specs.Limits.{class_count, pair_limit};

use crate::open::open_classes;
use crate::records::{ClassMargin, Match, Summary};
use crate::total::{close_classes, sum_up};
use crate::walk::walk;
use lists::list::List;
use positions::class_sums::ClassSums;
use sheets::sheet::Sheet;
use terms::fault::Fault;
use terms::limits::{CLASSES, PAIRS};
use terms::refusal::Refusal;

// What classes with these sums owe, where there is room for the answer.
// Kept: tried; without the clause wide `settle` is not proved: of an array that it lent on, a caller does not know the length
// by the type.
fn settle_in<S: Sheet>(
    sheet: &S,
    sums: &ClassSums,
    places: &mut [ClassMargin; CLASSES],
    matches: &mut List<'_, Match>,
) -> Summary
    requires { pair_limit ≤ length (memory matches.old) }
    ensures wide { length places.new ≡ class_count }
    ensures lender { lender matches.new ≡ lender matches.old }
    ensures deposited { Deposited (S.Sheet.rows sheet.now) (exposure_in sums.now) places.old matches.old places.new matches.new result }
    ensures balanced { Balanced (S.Sheet.rows sheet.now) (exposure_in sums.now).sums places.new matches.new }
{
    open_classes(sheet, sums, places);
    walk(sheet, places, matches);
    close_classes(places);
    sum_up(sheet, sums, places)
}

/// The deposit of classes with these sums, whoever they are of, by the rates of `sheet`: one record a class in the first places of
/// `classes`, and one match a pair in `matches`, which is cleared first. Nothing is valued, and no question is put to a security.
// Kept: a rule of the project: class results are a borrowed slice and matches a list, two memories that are handed in.
pub fn settle<S: Sheet>(
    sheet: &S,
    sums: &ClassSums,
    classes: &mut [ClassMargin],
    matches: &mut List<'_, Match>,
) -> Result<Summary, Fault>
    ensures lender { lender matches.new ≡ lender matches.old }
    ensures settles { Settles (S.Sheet.rows sheet.now) (exposure_in sums.now) classes.old matches.old classes.new matches.new result }
{
    if matches.room() < PAIRS {
        return Err(Refusal::TooFewPlaces.at(0));
    }
    let places = classes
        .first_chunk_mut::<CLASSES>()
        .ok_or(Refusal::TooFewPlaces.at(0))?;
    Ok(settle_in(sheet, sums, places, matches))
}
