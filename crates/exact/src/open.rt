// The classes before any pair is served.
ghost use Rattle.std.specs.Prelude.{◌≡◌, ℕ, ◌+◌, ◌<◌, ◌≤◌, slice_index_or};
ghost use Rattle.exact.specs.Classes.{none, nothing, class_opened};
ghost use Rattle.exact.specs.Sizes.{owed_limit, worths_limit};
ghost use Rattle.sheets.specs.Readings.{figures_of, rates_in};
ghost use Rattle.terms.specs.Limits.{class_count};

use crate::percentage::percentage;
use crate::records::{Class, Sums};
use sheets::rates::Rates;
use sheets::reading::rates_of;
use sheets::sheet::Sheet;
use std::array;
use terms::limits::CLASSES;

// A class by its rates and its sums: its parts, and its whole net value as leftover, with no credit.
// Kept: a deposit opens records that tell each part and each sum, here only the risk is kept; a trait over both would need a law
// for each of part, sum and bound a type, for bodies of a few lines.
fn open(rates: Rates, sums: Sums) -> Class
    requires { sums.bought + sums.sold ≤ worths_limit }
    ensures opened { result ≡ class_opened (figures_of rates) sums }
    ensures small { result.risk ≤ owed_limit }
{
    let drr = percentage(rates.y, sums.bought.abs_diff(sums.sold));
    let drs = percentage(rates.x, sums.bought + sums.sold);
    let dswk = percentage(rates.dep, sums.bought.min(sums.sold));
    Class {
        risk: drr + drs + dswk,
        leftover: sums.bought as i128 - sums.sold as i128,
        credits: 0,
    }
}

// A class before any pair is served.
fn open_class<S: Sheet>(sheet: &S, class: u16, sums: Sums) -> Class
    requires { sums.bought + sums.sold ≤ worths_limit }
    ensures { result ≡ class_opened (rates_in ((S.Sheet.rows sheet.now).classes class)) sums }
{
    open(rates_of(sheet, class), sums)
}

// All classes before any pair is served.
pub(crate) fn open_classes<S: Sheet>(sheet: &S, sums: &[Sums; CLASSES]) -> [Class; CLASSES]
    requires { (c : ℕ) → c < class_count → (slice_index_or sums.now c nothing).bought + (slice_index_or sums.now c nothing).sold ≤ worths_limit }
    ensures opened { (c : ℕ) → c < class_count → slice_index_or result c none ≡ class_opened (rates_in ((S.Sheet.rows sheet.now).classes c)) (slice_index_or sums.now c nothing) }
    ensures small { (c : ℕ) → c < class_count → (slice_index_or result c none).risk ≤ owed_limit }
{
    array::from_fn(|class| open_class(sheet, class as u16, sums[class]))
}
