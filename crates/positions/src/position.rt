// What a security is in a portfolio.
ghost use Rattle.positions.specs.Values.{is_valued_lem};
ghost use Rattle.std.specs.Prelude.{◌≡◌};

use terms::choice::Side;
use terms::money::Zloty;
use terms::refusal::Refusal;

/// A held security of a portfolio: its class, the side of its net, and its value.
#[derive(Clone, Copy)]
pub struct Position {
    pub class: u16,
    pub side: Side,
    pub value: Zloty,
}

/// Not held; held, and valued as a position; or held, and refused by a question.
#[derive(Clone, Copy)]
pub enum Valuation {
    Flat,
    Valued(Position),
    Refused(Refusal),
}

impl Valuation {
    // Whether there is a position.
    pub(crate) fn is_valued(&self) -> bool
        ensures { result ≡ is_valued_lem self.now }
    {
        matches!(self, Valuation::Valued(_))
    }
}
