// The value of a position.
ghost use Rattle.rules.specs.Margin.{factor, position_value};
ghost use Rattle.std.specs.Prelude.{◌≡◌, unsigned_abs};

use crate::rows::SecurityRow;
use terms::choice::ClassKind;
use terms::limits::{DURATION_FLOOR, DURATION_ONE};
use terms::money::{Quotation, Zloty};

/// The duration that a security counts with in a class of this kind: 1 under liquidity, else its own, and at least 0.5.
pub fn counted_duration(kind: ClassKind, duration: u32) -> u32
    ensures { result ≡ factor kind duration }
{
    match kind {
        ClassKind::Liquidity => DURATION_ONE,
        ClassKind::Duration => duration.max(DURATION_FLOOR),
    }
}

/// The row of a security, and the kind of its class.
#[derive(Clone, Copy, PartialEq, Eq, Debug)]
pub struct PricedSecurity {
    pub row: SecurityRow,
    pub kind: ClassKind,
}

impl PricedSecurity {
    /// The amounts A and V of a net quantity of the security, if A is at most the limit of a position.
    // Kept: A and V are a pair, a rule of the project.
    pub fn valuation(self, net: i64) -> Option<(Zloty, Zloty)>
        ensures { result ≡ position_value (unsigned_abs net) self.row self.kind }
    {
        let duration = counted_duration(self.kind, self.row.duration);
        Quotation::at_price(net.unsigned_abs(), self.row.price).valued(self.row.rate, duration)
    }
}
