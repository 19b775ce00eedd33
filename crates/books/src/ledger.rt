// A table of nets, as a net table and a trial layer keep one.
ghost use Rattle.std.specs.Prelude.{◌≡◌, ℕ, length, pos, slice_index_or};
ghost use Rattle.books.specs.Books.{Within};
ghost use Rattle.terms.specs.Limits.{net_limit, security_count};

use terms::limits::SECURITIES;

mod methods;
mod reading;

/// The net of each security, and how many bookings are left.
#[derive(Drop)]
pub struct Ledger {
    nets: [i64; SECURITIES],
    left: u32,
    // Kept: tried; without it the law that no net lies past the last security does not close, since it speaks of any ledger.
    ghost long: { length nets ≡ security_count },
    ghost limited: { (s : ℕ) → Within net_limit (slice_index_or nets s (pos 0)) },
}
