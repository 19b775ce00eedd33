// A book that lists its bookings in memory handed in, and sums them when it is read.
ghost use Rattle.std.specs.Prelude.{◌≡◌, ℕ, ◌≤◌, length, take, pos};
ghost use Rattle.books.specs.Books.{Within};
ghost use Rattle.books.specs.Totals.{total};
ghost use Rattle.lists.specs.Lists.{items};
ghost use Rattle.terms.specs.Limits.{booking_limit, net_limit, security_count};

use crate::booking::Booking;
use lists::list::List;

mod methods;

/// The trade journal: at most so many bookings as a book takes, all of listed securities, and no net past its limit after any of them.
#[derive(Drop)]
pub struct Journal<'a> {
    list: List<'a, Booking>,
    ghost few: { length (items list) ≤ booking_limit },
    ghost limited: { (n s : ℕ) → Within net_limit (total (take n (items list)) s) },
    ghost known: { (s : ℕ) → security_count ≤ s → total (items list) s ≡ pos 0 },
}
