// Numbers in human units. What each shows is said by `decimals`: so many digits behind the point.
ghost use Rattle.std.specs.Prelude.{[], ◌<◌, ◌≤◌, Some};
ghost use Rattle.wording.specs.Decimals.{amount, decimals, duration, left_over, money, percent, price};

use std::fmt;
use terms::money::SignedZloty;

/// A number of units of 10^-PLACES: 330 is 0.330 with three places.
#[derive(Clone, Copy)]
pub struct Decimal<const PLACES: usize> {
    pub units: u128,
    ghost some: { 0 < PLACES },
    ghost few: { PLACES ≤ 19 },
}

impl<const PLACES: usize> fmt::Display for Decimal<PLACES> {
    ghost output = { λ x. Some (decimals PLACES x.units []) };

    #[tactic(auto, using(crate::proofs::Filled::some_power, crate::proofs::Filled::spelled))]
    fn fmt<W: fmt::Write>(&self, f: &mut fmt::Formatter<W>) -> fmt::Result {
        let one = 10_u128.pow(PLACES as u32);
        let whole = self.units / one;
        let part = self.units % one;
        let width = PLACES;
        write!(f, "{whole}.{part:0width$}")
    }
}

// Kept: a rule of the project: each kind of amount below is a struct of its own around an integer; all print as a `Decimal`.

/// A part of the whole, in 10^-5 of it: 330 is 0.330%.
#[derive(Clone, Copy, PartialEq, Eq, Debug)]
pub struct Percent(pub u32);

impl fmt::Display for Percent {
    ghost output = { λ x. Some (percent x.0) };

    #[tactic(auto, unfolding(crate::specs::Decimals::percent))]
    fn fmt<W: fmt::Write>(&self, f: &mut fmt::Formatter<W>) -> fmt::Result {
        let units = u128::from(self.0);
        let number = Decimal::<3> { units };
        write!(f, "{number}%")
    }
}

/// A price or a currency rate, in 10^-4 of a currency unit: 10000 is 1.0000.
#[derive(Clone, Copy, PartialEq, Eq, Debug)]
pub struct Price(pub u32);

impl fmt::Display for Price {
    ghost output = { λ x. Some (price x.0) };

    #[tactic(auto, unfolding(crate::specs::Decimals::price))]
    fn fmt<W: fmt::Write>(&self, f: &mut fmt::Formatter<W>) -> fmt::Result {
        let price = u128::from(self.0);
        Decimal::<4> { units: price }.fmt(f)
    }
}

/// A duration, in 10^-6: 500000 is 0.500000.
#[derive(Clone, Copy, PartialEq, Eq, Debug)]
pub struct Duration(pub u32);

impl fmt::Display for Duration {
    ghost output = { λ x. Some (duration x.0) };

    #[tactic(auto, unfolding(crate::specs::Decimals::duration))]
    fn fmt<W: fmt::Write>(&self, f: &mut fmt::Formatter<W>) -> fmt::Result {
        let units = u128::from(self.0);
        Decimal::<6> { units }.fmt(f)
    }
}

/// An amount in grosz, said in zloty: 1373147 is 13731.47.
#[derive(Clone, Copy, PartialEq, Eq, Debug)]
pub struct Money(pub u64);

impl fmt::Display for Money {
    ghost output = { λ x. Some (money x.0) };

    #[tactic(auto, unfolding(crate::specs::Decimals::money))]
    fn fmt<W: fmt::Write>(&self, f: &mut fmt::Formatter<W>) -> fmt::Result {
        let units = u128::from(self.0);
        Decimal::<2> { units }.fmt(f)
    }
}

/// An amount in 10^-4 zloty: 29689493504 is 2968949.3504.
#[derive(Clone, Copy, PartialEq, Eq, Debug)]
pub struct Amount(pub u64);

impl fmt::Display for Amount {
    ghost output = { λ x. Some (amount x.0) };

    #[tactic(auto, unfolding(crate::specs::Decimals::amount))]
    fn fmt<W: fmt::Write>(&self, f: &mut fmt::Formatter<W>) -> fmt::Result {
        let units = u128::from(self.0);
        Decimal::<4> { units }.fmt(f)
    }
}

/// What is left over of a class, in 10^-4 zloty: bought above 0, sold below.
#[derive(Clone, Copy, PartialEq, Eq, Debug)]
pub struct Leftover(pub SignedZloty);

impl fmt::Display for Leftover {
    ghost output = { λ x. Some (left_over x.0.net) };

    #[tactic(auto, unfolding(crate::specs::Decimals::amount))]
    fn fmt<W: fmt::Write>(&self, f: &mut fmt::Formatter<W>) -> fmt::Result {
        let units = self.0.units();
        let amount = Amount(units.unsigned_abs());
        if units > 0 {
            write!(f, "{amount} bought")
        } else if units < 0 {
            write!(f, "{amount} sold")
        } else {
            f.write_str("nothing")
        }
    }
}
