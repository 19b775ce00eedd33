// What each class owes, and the figures of the whole portfolio.
ghost use Rattle.std.specs.Prelude.{◌≡◌, ℕ, ◌<◌, ◌≤◌, get_or, slice_index_or};
ghost use Rattle.deposits.specs.Records.{Owing, both_flagged, closed, held_flag};
ghost use Rattle.deposits.specs.Told.{none};
ghost use Rattle.rules.specs.Held.{count_pairs};
ghost use Rattle.rules.specs.Laws.{deposit_limit};
ghost use Rattle.terms.specs.Sums.{count_below, sum_below};
ghost use Rattle.terms.specs.Limits.{class_count};

use crate::records::{ClassMargin, Summary};
use positions::class_sums::ClassSums;
use sheets::pairs::pairs_of;
use sheets::sheet::Sheet;
use terms::limits::CLASSES;
use terms::money::Grosz;

// What a class owes: its parts less its credits.
fn close(class: &mut ClassMargin)
    requires { Owing class.old }
    ensures { class.new ≡ closed class.old }
{
    class.dolr = class.drr - class.kspk + class.drs + class.dswk;
}

// What each class owes.
pub(crate) fn close_classes(classes: &mut [ClassMargin; CLASSES])
    requires { (c : ℕ) → c < class_count → Owing (slice_index_or classes.old c none) }
    ensures { (c : ℕ) → c < class_count → slice_index_or classes.new c none ≡ closed (slice_index_or classes.old c none) }
{
    for class in classes.iter_mut() {
        close(class);
    }
}

// What all classes owe.
fn total(classes: &[ClassMargin; CLASSES]) -> Grosz
    requires { (c : ℕ) → c < class_count → (get_or classes.now c none).dolr.grosz ≤ deposit_limit }
    ensures { result.grosz ≡ sum_below class_count (λ c. (get_or classes.now c none).dolr.grosz) }
{
    let mut total = Grosz::ZERO;
    for class in classes {
        total += class.dolr;
    }
    total
}

// How many classes are held, C.
fn held_classes(classes: &[ClassMargin; CLASSES]) -> u8
    ensures { result ≡ count_below class_count (held_flag classes.now) }
{
    classes.iter().filter(|class| class.held).count() as u8
}

// Whether a class is held.
fn is_held(classes: &[ClassMargin; CLASSES], class: u16) -> bool
    ensures { result ≡ held_flag classes.now class }
{
    classes.get(class as usize).is_some_and(|class| class.held)
}

// How many pairs of the sheet have both classes held, R.
fn held_pairs<S: Sheet>(sheet: &S, classes: &[ClassMargin; CLASSES]) -> u8
    ensures { result ≡ count_pairs (both_flagged classes.now) (S.Sheet.rows sheet.now).pairs }
{
    pairs_of(sheet)
        .filter(|pair| is_held(classes, pair.first) && is_held(classes, pair.second))
        .count() as u8
}

// DSPAN, C, N and R.
pub(crate) fn sum_up<S: Sheet>(
    sheet: &S,
    sums: &ClassSums,
    classes: &[ClassMargin; CLASSES],
) -> Summary
    requires { (c : ℕ) → c < class_count → (get_or classes.now c none).dolr.grosz ≤ deposit_limit }
    ensures dspan { result.dspan.grosz ≡ sum_below class_count (λ c. (get_or classes.now c none).dolr.grosz) }
    ensures classes { result.classes ≡ count_below class_count (held_flag classes.now) }
    ensures securities { result.securities ≡ sums.now.held }
    ensures pairs { result.pairs ≡ count_pairs (both_flagged classes.now) (S.Sheet.rows sheet.now).pairs }
{
    Summary {
        dspan: total(classes),
        classes: held_classes(classes),
        securities: sums.held,
        pairs: held_pairs(sheet, classes),
    }
}
