// The class records before any pair is served.
ghost use Rattle.std.specs.Prelude.{◌≡◌, ℕ, ◌+◌, ◌<◌, ◌≤◌, min, pos, ◌-ℤ◌, slice_index_or, unsigned_abs};
ghost use Rattle.deposits.specs.Records.{class_opened, opened_by};
ghost use Rattle.deposits.specs.Told.{none};
ghost use Rattle.positions.specs.ClassSums.{no_sum};
ghost use Rattle.rules.specs.Laws.{sum_limit};
ghost use Rattle.sheets.specs.Readings.{figures_of};
ghost use Rattle.terms.specs.Limits.{class_count};

use crate::records::ClassMargin;
use positions::class_sum::ClassSum;
use positions::class_sums::ClassSums;
use sheets::rates::Rates;
use sheets::reading::rates_of;
use sheets::sheet::Sheet;
use terms::limits::CLASSES;
use terms::money::{Grosz, SignedZloty, Zloty};

// How far two sums are apart, and the smaller one.
// Kept: a rule of the project: the sums of a class are the pair (PK, PS).
fn spread(sums: (Zloty, Zloty)) -> (Zloty, Zloty)
    ensures apart { result.0.units ≡ unsigned_abs (pos sums.0.units -ℤ pos sums.1.units) }
    ensures lower { result.1.units ≡ min sums.0.units sums.1.units }
{
    let (bought, sold) = (sums.0.units(), sums.1.units());
    (
        Zloty::new(bought.abs_diff(sold)),
        Zloty::new(bought.min(sold)),
    )
}

// A class by its rates and its sums: its parts, and its whole net value as leftover, with no credit.
fn open_by(rates: Rates, sums: (Zloty, Zloty), held: bool) -> ClassMargin
    requires { sums.0.units + sums.1.units ≤ sum_limit }
    ensures { result ≡ opened_by (figures_of rates) sums.0.units sums.1.units held }
{
    let (bought, sold) = sums;
    let (apart, lower) = spread(sums);
    ClassMargin {
        bought,
        sold,
        leftover: SignedZloty::net(bought, sold),
        held,
        drr: apart.percentage(rates.y),
        drs: (bought + sold).percentage(rates.x),
        dswk: lower.percentage(rates.dep),
        kspk: Grosz::ZERO,
        dolr: Grosz::ZERO,
    }
}

// A class before any pair is served.
fn open_class<S: Sheet>(sheet: &S, sum: &ClassSum, class: u16) -> ClassMargin
    requires { sum.now.bought.units + sum.now.sold.units ≤ sum_limit }
    ensures { result ≡ class_opened (S.Sheet.rows sheet.now) sum.now class }
{
    open_by(rates_of(sheet, class), sum.pair(), sum.held > 0)
}

// All classes before any pair is served.
pub(crate) fn open_classes<S: Sheet>(
    sheet: &S,
    sums: &ClassSums,
    classes: &mut [ClassMargin; CLASSES],
)
    ensures { (c : ℕ) → c < class_count → slice_index_or classes.new c none ≡ class_opened (S.Sheet.rows sheet.now) (slice_index_or sums.now.classes c no_sum) c }
{
    for (class, place) in classes.iter_mut().enumerate() {
        *place = open_class(sheet, &sums.classes[class], class as u16);
    }
}
