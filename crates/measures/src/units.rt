// Amounts to their last digit.
// Kept: a rule of the project: each kind of amount is a struct of its own around an integer; both print as a `Decimal`.
ghost use Rattle.measures.specs.Amounts.{exact_amount, thousandths};
ghost use Rattle.std.specs.Prelude.{Some};

use std::fmt;
use wording::units::Decimal;

/// An amount in 10^-5 zloty, thousandths of a grosz: 2430 is 0.02430.
#[derive(Clone, Copy, PartialEq, Eq, Debug)]
pub struct Thousandths(pub u64);

impl fmt::Display for Thousandths {
    ghost output = { λ x. Some (thousandths x.0) };

    #[tactic(auto, unfolding(crate::specs::Amounts::thousandths))]
    fn fmt<W: fmt::Write>(&self, f: &mut fmt::Formatter<W>) -> fmt::Result {
        let units = u128::from(self.0);
        Decimal::<5> { units }.fmt(f)
    }
}

/// An amount in 10^-19 zloty.
#[derive(Clone, Copy, PartialEq, Eq, Debug)]
pub struct Exact(pub u128);

impl fmt::Display for Exact {
    ghost output = { λ x. Some (exact_amount x.0) };

    #[tactic(auto, unfolding(crate::specs::Amounts::exact_amount))]
    fn fmt<W: fmt::Write>(&self, f: &mut fmt::Formatter<W>) -> fmt::Result {
        let units = self.0;
        Decimal::<19> { units }.fmt(f)
    }
}
