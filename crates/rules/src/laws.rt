// Numbers of the margin, with the theorems that they stand in.
ghost use Rattle.rules.specs.Laws.{NoNegative, Monotone, SurchargesLawful, value_limit, sum_limit, deposit_limit, span_limit, ValuesWithin, SumsWithin, DepositsWithin, SpansWithin, accuracy_bound_lem, Accuracy};
ghost use Rattle.rules.specs.Rows.{raised_class};
ghost use Rattle.std.specs.Prelude.{◌≡◌, min};

use crate::rows::{Addition, ClassRow};
use terms::limits::{AMOUNT_LIMIT, CLASSES, DURATION_LIMIT, DURATION_ONE, SECURITIES, WHOLE};

// The zloty units of a grosz.
const GROSZ_UNITS: u64 = 100;

/// Bounds on the numbers of a margin whose amounts are within their limit: on a value and on the two sums of a class together,
/// in zloty units, and on what a class owes before its credits and what a portfolio owes, in grosz.
#[derive(Clone, Copy)]
pub struct Bounds {
    pub value: u64,
    pub sums: u64,
    pub deposit: u64,
    pub span: u64,
}

/// How far a deposit may be from the exact margin with so many classes, securities and pairs held, in thousandths of a grosz.
/// It never is farther.
// Kept: C, N and R stand one by one, as in the summary, which is DSPAN, C, N and R: a rule of the project.
#[tactic(auto, using(crate::proofs::Accuracy::accuracy))]
pub fn accuracy_bound(classes: u8, securities: u16, pairs: u8) -> u64
    ensures bound { result ≡ accuracy_bound_lem classes securities pairs }
    ensures accuracy { Accuracy }
{
    let securities = securities as u64;
    1_500 * classes as u64 + 465 * securities + pairs as u64 * (2_000 + 310 * securities)
}

/// Bounds that follow from the limits of a sheet; all of them fit 63 bits. No margin is above them, and not every one is met.
#[tactic(auto, using(crate::proofs::Fits::values_within, crate::proofs::Fits::sums_within, crate::proofs::Fits::deposits_within, crate::proofs::Fits::spans_within))]
pub fn margin_bounds() -> Bounds
    ensures numbers { result ≡ record { value = value_limit; sums = sum_limit; deposit = deposit_limit; span = span_limit } }
    ensures values { ValuesWithin result.value }
    ensures sums { SumsWithin result.sums }
    ensures deposits { DepositsWithin result.deposit }
    ensures spans { SpansWithin result.span }
{
    let value = AMOUNT_LIMIT / DURATION_ONE as u64 * DURATION_LIMIT as u64;
    let sums = value * SECURITIES as u64;
    let deposit = 3 * (sums / GROSZ_UNITS + 1);
    Bounds {
        value,
        sums,
        deposit,
        span: deposit * CLASSES as u64,
    }
}

/// The highest credit of a pair whose classes have these rates y: the smaller of them. Under it no class owes less than nothing.
#[tactic(auto, using(crate::proofs::Theorems::no_negative))]
pub fn credit_ceiling(first: u32, second: u32) -> u32
    ensures ceiling { result ≡ min first second }
    ensures signs { NoNegative }
{
    first.min(second)
}

/// A class's row under a surcharge: additions to its y and its x, each up to the whole. It lowers no deposit, and keeps the
/// laws of a sheet.
#[tactic(auto, using(crate::proofs::Theorems::monotone, crate::proofs::Theorems::surcharges_lawful))]
pub fn surcharged_row(row: ClassRow, addition: Addition) -> ClassRow
    ensures row { result ≡ raised_class addition.y addition.x row }
    ensures monotone { Monotone }
    ensures lawful { SurchargesLawful }
{
    ClassRow {
        y: row.y.saturating_add(addition.y).min(WHOLE),
        x: row.x.saturating_add(addition.x).min(WHOLE),
        ..row
    }
}
