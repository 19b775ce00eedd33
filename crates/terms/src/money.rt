// Amounts of money. Each kind is a type of its own: only a currency rate turns an amount in quotation currency into zloty units,
// only a percentage zloty units into grosz, and an amount is added to its own kind alone.
ghost use Rattle.std.specs.Prelude.{◌≡◌, ◌+◌, ◌-◌, ◌*◌, ◌/◌, ◌^◌, ◌<◌, ◌≤◌, min, pos, ◌-ℤ◌};
ghost use Rattle.terms.specs.Limits.{whole};
ghost use Rattle.terms.specs.Money.{Sums, at_price_lem, credited, largest, largest_signed, nearest, percentage, valuation};

use crate::limits::{AMOUNT_LIMIT, DURATION_ONE, WHOLE};
use std::ops::{Add, AddAssign, Sub};

// A currency rate of 1, in 10^-4 zloty.
const RATE_ONE: u128 = 10_000;

// The zloty units of a grosz.
const GROSZ_UNITS: u128 = 100;

// The whole of a percentage that is counted in grosz.
const WHOLE_IN_GROSZ: u128 = WHOLE as u128 * GROSZ_UNITS;

/// An amount in 10^-4 of a quotation currency.
#[derive(Clone, Copy)]
pub struct Quotation {
    units: u128,
    ghost small: { units < 2 ^ 96 },
}

/// An amount in zloty units, 10^-4 zloty each.
#[derive(Clone, Copy, PartialEq, Eq, Debug)]
pub struct Zloty {
    units: u64,
}

/// What is bought above what is sold, in zloty units: more bought above 0, more sold below.
#[derive(Clone, Copy, PartialEq, Eq, Debug)]
pub struct SignedZloty {
    net: i64,
}

/// An amount in grosz.
#[derive(Clone, Copy, PartialEq, Eq, Debug)]
pub struct Grosz {
    grosz: u64,
}

// A quotient. Where both numbers fit 64 bits, as mostly, it is found in 64 bits, which takes far less time.
fn quotient(n: u128, d: u128) -> u128
    requires { 0 < d }
    ensures { result ≡ n / d }
{
    match (u64::try_from(n), u64::try_from(d)) {
        (Ok(n), Ok(d)) => u128::from(n / d),
        _ => n / d,
    }
}

// A division to nearest, halves up.
fn nearest_of(n: u128, d: u128) -> u128
    requires some { 0 < d }
    requires fits { n + d / 2 < 2 ^ 128 }
    ensures { result ≡ nearest n d }
{
    quotient(n + d / 2, d)
}

// A percentage of so many zloty units in grosz, to nearest.
fn part_of(percent: u32, units: u64) -> u128
    ensures { result ≡ percentage percent units }
{
    nearest_of(percent as u128 * units as u128, WHOLE_IN_GROSZ)
}

// The credit of a percentage of so many zloty units in grosz, rounded down.
fn credit_of(percent: u32, units: u64) -> u128
    ensures { result ≡ credited percent units }
{
    quotient(percent as u128 * units as u128, WHOLE_IN_GROSZ)
}

// The number, or the largest of 64 bits.
fn capped(n: u128) -> u64
    ensures { result ≡ min n largest }
{
    n.min(u64::MAX as u128) as u64
}

// So many units as a signed number, up to the largest.
fn signed(units: u64) -> i64
    ensures { result ≡ pos (min units largest_signed) }
{
    units.min(i64::MAX as u64) as i64
}

impl Quotation {
    /// So many units at a price.
    #[tactic(auto, using(crate::proofs::Products::product_96))]
    pub fn at_price(quantity: u64, price: u32) -> Quotation
        ensures { result.units ≡ at_price_lem quantity price }
    {
        Quotation {
            units: quantity as u128 * price as u128,
        }
    }

    /// The amounts A and V of a position at a currency rate and a duration, if A is at most the limit of a position.
    // Kept: a rule of the project: A and V stand in a pair.
    #[tactic(auto, using(crate::proofs::Products::product_128))]
    pub fn valued(self, rate: u32, duration: u32) -> Option<(Zloty, Zloty)>
        ensures { result ≡ valuation self.units rate duration }
    {
        let amount = nearest_of(self.units * rate as u128, RATE_ONE);
        if amount > AMOUNT_LIMIT as u128 {
            return None;
        }
        let value = nearest_of(amount * duration as u128, DURATION_ONE as u128);
        Some((
            Zloty {
                units: amount as u64,
            },
            Zloty {
                units: value as u64,
            },
        ))
    }
}

impl Zloty {
    pub const ZERO: Zloty = Zloty { units: 0 };

    /// An amount of so many zloty units.
    pub fn new(units: u64) -> Zloty
        ensures { result ≡ record { units = units } }
    {
        Zloty { units }
    }

    /// How many zloty units it is.
    pub fn units(self) -> u64
        ensures { result ≡ self.units }
    {
        self.units
    }

    /// A percentage of the amount, to nearest; at most the largest amount, which no percentage up to the whole passes.
    // Kept: a percentage and a credit differ in their rounding alone; a trait with a law and two impls is no plainer than two
    // bodies of a line.
    #[tactic(auto, using(crate::proofs::Products::part_fits))]
    pub fn percentage(self, percent: u32) -> Grosz
        ensures grosz { result.grosz ≡ min (percentage percent self.units) largest }
        ensures lawful { percent ≤ whole → result.grosz ≡ percentage percent self.units }
    {
        Grosz {
            grosz: capped(part_of(percent, self.units)),
        }
    }

    /// The credit of a percentage of the amount, rounded down; at most the largest amount, which no percentage up to the whole passes.
    #[tactic(auto, using(crate::proofs::Products::credit_fits))]
    pub fn credit(self, percent: u32) -> Grosz
        ensures grosz { result.grosz ≡ min (credited percent self.units) largest }
        ensures lawful { percent ≤ whole → result.grosz ≡ credited percent self.units }
    {
        Grosz {
            grosz: capped(credit_of(percent, self.units)),
        }
    }
}

impl SignedZloty {
    pub const ZERO: SignedZloty = SignedZloty { net: 0 };

    /// An amount of so many zloty units.
    pub fn new(units: i64) -> SignedZloty
        ensures { result ≡ record { net = units } }
    {
        SignedZloty { net: units }
    }

    /// What is bought above what is sold; each counts up to the largest signed amount.
    pub fn net(bought: Zloty, sold: Zloty) -> SignedZloty
        ensures net { result.net ≡ pos (min bought.units largest_signed) -ℤ pos (min sold.units largest_signed) }
        ensures exact { bought.units ≤ largest_signed → sold.units ≤ largest_signed → result.net ≡ pos bought.units -ℤ pos sold.units }
    {
        SignedZloty {
            net: signed(bought.units) - signed(sold.units),
        }
    }

    /// How many zloty units it is.
    pub fn units(self) -> i64
        ensures { result ≡ self.net }
    {
        self.net
    }
}

impl Grosz {
    pub const ZERO: Grosz = Grosz { grosz: 0 };

    /// How many grosz it is.
    pub fn grosz(self) -> u64
        ensures { result ≡ self.grosz }
    {
        self.grosz
    }
}

// Kept: a rule of the project: each kind of amount is a struct of its own around an integer, so Zloty and Grosz each have
// their own Add and AddAssign, and no sum mixes the two. A sum is capped at the largest amount, so that no call has a condition.
impl Add<Zloty> for Zloty {
    type Output = Zloty;

    ghost add_gives = { λ a b sum. Sums a.units b.units sum.units };

    fn add(self, rhs: Zloty) -> Zloty {
        Zloty {
            units: self.units.saturating_add(rhs.units),
        }
    }
}

impl AddAssign<Zloty> for Zloty {
    ghost add_assign_gives = { λ a b sum. Sums a.units b.units sum.units };

    fn add_assign(&mut self, zloty: Zloty) {
        *self = *self + zloty;
    }
}

impl Add<Grosz> for Grosz {
    type Output = Grosz;

    ghost add_gives = { λ a b sum. Sums a.grosz b.grosz sum.grosz };

    fn add(self, rhs: Grosz) -> Grosz {
        Grosz {
            grosz: self.grosz.saturating_add(rhs.grosz),
        }
    }
}

impl AddAssign<Grosz> for Grosz {
    ghost add_assign_gives = { λ a b sum. Sums a.grosz b.grosz sum.grosz };

    fn add_assign(&mut self, grosz: Grosz) {
        *self = *self + grosz;
    }
}

impl Sub<Grosz> for Grosz {
    type Output = Grosz;

    // what is left of an amount, nothing where more is taken than there is
    ghost sub_gives = { λ a b rest. rest ≡ record { grosz = a.grosz - b.grosz } };

    fn sub(self, rhs: Grosz) -> Grosz {
        Grosz {
            grosz: self.grosz.saturating_sub(rhs.grosz),
        }
    }
}
