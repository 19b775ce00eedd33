// A portfolio, valued.
ghost use Rattle.positions.specs.Values.{Listed, Small};

use crate::position::Valuation;
use terms::limits::SECURITIES;

mod methods;

/// What each security is: no position is worth more than the largest value, and each is one of a class that there is.
#[derive(Drop)]
pub struct Portfolio {
    all: [Valuation; SECURITIES],
    ghost small: { Small all },
    ghost listed: { Listed all },
}
