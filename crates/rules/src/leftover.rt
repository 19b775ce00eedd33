// What is left of the net values of two classes of a pair, and how it is matched.
ghost use Rattle.rules.specs.Laws.{Matching, Opposite};
ghost use Rattle.rules.specs.Margin.{matched, towards};
ghost use Rattle.std.specs.Prelude.{◌≡◌, true};

use terms::money::{SignedZloty, Zloty};

/// Two leftovers can be matched: one is below 0 and the other above. After the walk over its pairs, a sheet has no such pair left.
#[tactic(auto, using(crate::proofs::Theorems::matching))]
pub fn opposite(a: i128, b: i128) -> bool
    ensures yes { result ≡ true → Opposite a b }
    ensures no { Opposite a b → result ≡ true }
    ensures matching { Matching }
{
    a < 0 && b > 0 || a > 0 && b < 0
}

/// The part of two leftovers that is matched: the smaller magnitude where they are opposite, else nothing.
pub fn matched_units(a: i128, b: i128) -> u128
    ensures { result ≡ matched a b }
{
    if opposite(a, b) {
        a.unsigned_abs().min(b.unsigned_abs())
    } else {
        0
    }
}

/// A leftover, so much nearer to 0, which it does not pass.
// Kept: its magnitude less the matched part, at least 0, times its sign, overflows at the lowest i128; the three cases do not.
pub fn units_towards_zero(leftover: i128, matched: u128) -> i128
    ensures { result ≡ towards leftover matched }
{
    if matched >= leftover.unsigned_abs() {
        0
    } else if leftover < 0 {
        leftover + matched as i128
    } else {
        leftover - matched as i128
    }
}

/// The part of two leftovers in zloty units that is matched.
pub fn matched_part(a: SignedZloty, b: SignedZloty) -> Zloty
    ensures { result ≡ record { units = matched a.net b.net } }
{
    Zloty::new(matched_units(a.units().into(), b.units().into()) as u64)
}

/// A leftover in zloty units, so much nearer to 0.
pub fn moved_towards_zero(leftover: SignedZloty, matched: Zloty) -> SignedZloty
    ensures { result ≡ record { net = towards leftover.net matched.units } }
{
    SignedZloty::new(units_towards_zero(leftover.units().into(), matched.units().into()) as i64)
}
