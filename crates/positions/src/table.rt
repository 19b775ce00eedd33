// The sums and counts of all classes, in one pass over the positions.
ghost use Rattle.std.specs.Prelude.{◌≡◌, ℕ, ◌^◌, ◌+◌, ◌<◌, length, slice_index_or, true};
ghost use Rattle.positions.specs.ClassSums.{Summed, no_sum, with_held, with_position};
ghost use Rattle.positions.specs.Values.{Listed, Small, class_listed, count_all_lem, worth_of};
ghost use Rattle.terms.specs.Limits.{class_count, security_count};

use crate::class_sum::ClassSum;
use crate::position::{Position, Valuation};
use terms::choice::Side;
use terms::limits::{CLASSES, SECURITIES};

// Adds a position to what its class sums to.
fn add(sum: &mut ClassSum, position: &Position)
    requires bought { sum.old.bought.units + position.now.value.units < 2 ^ 64 }
    requires sold { sum.old.sold.units + position.now.value.units < 2 ^ 64 }
    requires held { sum.old.held + 1 < 2 ^ 16 }
    ensures { sum.new ≡ with_held position.now sum.old }
{
    match position.side {
        Side::Bought => sum.bought += position.value,
        Side::Sold => sum.sold += position.value,
    }
    sum.held += 1;
}

// Adds a position, if there is one, to what its class sums to.
fn add_to(sums: &mut [ClassSum; CLASSES], valuation: &Valuation)
    requires listed { class_listed valuation.now ≡ true }
    requires bought { (c : ℕ) → c < class_count → (slice_index_or sums.old c no_sum).bought.units + worth_of valuation.now < 2 ^ 64 }
    requires sold { (c : ℕ) → c < class_count → (slice_index_or sums.old c no_sum).sold.units + worth_of valuation.now < 2 ^ 64 }
    requires held { (c : ℕ) → c < class_count → (slice_index_or sums.old c no_sum).held + 1 < 2 ^ 16 }
    ensures { sums.new ≡ with_position valuation.now sums.old }
{
    if let Valuation::Valued(position) = valuation {
        add(&mut sums[position.class as usize], position);
    }
}

// What each class sums to.
pub(crate) fn class_sums_of(all: &[Valuation; SECURITIES]) -> [ClassSum; CLASSES]
    requires small { Small all.now }
    requires listed { Listed all.now }
    ensures { Summed all.now security_count result }
{
    let mut sums = [ClassSum::NONE; CLASSES];
    for valuation in all {
        add_to(&mut sums, valuation);
    }
    sums
}

// How many securities are held.
pub(crate) fn count_of(all: &[Valuation; SECURITIES]) -> u16
    ensures { result ≡ count_all_lem all.now security_count }
{
    all.iter().filter(|valuation| valuation.is_valued()).count() as u16
}
