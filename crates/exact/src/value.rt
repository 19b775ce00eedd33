// What a position is worth, with no rounding.
ghost use Rattle.std.specs.Prelude.{◌≡◌, ◌*◌, ◌≤◌, unsigned_abs};
ghost use Rattle.exact.specs.Classes.{worth_at};
ghost use Rattle.exact.specs.Sizes.{product_limit};
ghost use Rattle.rules.specs.Margin.{exact};

use crate::records::Sums;
use rules::position::{PricedSecurity, counted_duration};
use rules::rows::SecurityRow;

// The value of so many units of a security that counts with this duration, in 10^-14 zloty.
fn value(units: u64, row: SecurityRow, duration: u32) -> u128
    requires { units * row.price * row.rate ≤ product_limit }
    ensures { result ≡ exact.value units row.price row.rate duration }
{
    units as u128 * row.price as u128 * row.rate as u128 * duration as u128
}

// What a net quantity of a security is worth, as bought and as sold.
// Kept: a deposit rounds what a position is worth and refuses what is too large, here neither is done; a trait over both would
// need a law for the value and the bound of each type, for bodies of a few lines.
pub(crate) fn worth(net: i64, security: PricedSecurity) -> Sums
    requires { unsigned_abs net * security.row.price * security.row.rate ≤ product_limit }
    ensures { result ≡ worth_at net security.row security.kind }
{
    let PricedSecurity { row, kind } = security;
    let duration = counted_duration(kind, row.duration);
    let value = value(net.unsigned_abs(), row, duration);
    // Kept: one comparison; to make `side_of` of positions public for it is no plainer.
    if net < 0 {
        Sums {
            bought: 0,
            sold: value,
        }
    } else {
        Sums {
            bought: value,
            sold: 0,
        }
    }
}
