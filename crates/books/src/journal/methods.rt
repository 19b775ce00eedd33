// Opening, reading and booking.
ghost use Rattle.std.specs.Prelude.{◌≡◌, refl, ℕ, ◌<◌, min, [], length, pos, ◌+ℤ◌, slice_index_or};
ghost use Rattle.books.specs.Books.{Within, no_holdings};
ghost use Rattle.books.specs.Journals.{journal_absent, journal_account, journal_left, journal_limited, journal_meaning, journal_nets};
ghost use Rattle.books.specs.Totals.{share, total};
ghost use Rattle.lists.specs.Lists.{items, lender, memory};
ghost use Rattle.terms.specs.declared.layer.Layer.TheVariants as layers;
ghost use Rattle.terms.specs.Limits.{booking_limit, net_limit, security_count};

use super::Journal;
use crate::book::{Book, Positions};
use crate::booking::Booking;
use crate::judge::{judge, known};
use lists::list::List;
use terms::fault::Fault;
use terms::layer::Layer;
use terms::limits::{BOOKINGS, SECURITIES};

// What a booking adds to the net of a security.
fn share_of(booking: Booking, security: u16) -> i64
    ensures { result ≡ share booking security }
{
    if booking.security == security {
        booking.quantity
    } else {
        0
    }
}

// Adds a booking to the net of its security, if there is such a security.
fn add_to(nets: &mut [i64; SECURITIES], booking: &Booking)
    requires { (s : ℕ) → s < security_count → Within net_limit (slice_index_or nets.old s (pos 0) +ℤ share booking.now s) }
    ensures { (s : ℕ) → s < security_count → slice_index_or nets.new s (pos 0) ≡ slice_index_or nets.old s (pos 0) +ℤ share booking.now s }
{
    let security = booking.security as usize;
    if security < SECURITIES {
        nets[security] += booking.quantity;
    }
}

impl<'a> Journal<'a> {
    /// No booking is listed; at most the first 4,096 places are used.
    pub fn open(places: &'a mut [Booking]) -> Journal<'a>
        ensures lender { lender result.list ≡ places.entry.ghost_name }
        ensures memory { memory result.list ≡ places.old }
        ensures items { items result.list ≡ [] }
        ensures holdings { (journal_account result).holdings ≡ no_holdings }
        ensures left { (journal_account result).left ≡ min booking_limit (length places.old) }
    {
        Journal {
            list: List::over(places),
        }
    }

    // The sum of the quantities booked of a security.
    fn sum(&self, security: u16) -> i64
        ensures { result ≡ total (items self.now.list) security }
    {
        let mut sum = 0;
        for booking in self.list.records() {
            sum += share_of(*booking, security);
        }
        sum
    }

    // The sums of all securities, in one pass over the bookings.
    fn sums(&self) -> [i64; SECURITIES]
        ensures { (s : ℕ) → s < security_count → slice_index_or result s (pos 0) ≡ total (items self.now.list) s }
    {
        let mut nets = [0; SECURITIES];
        for booking in self.list.records() {
            add_to(&mut nets, booking);
        }
        nets
    }

    // How many of the places that the journal uses are free.
    fn free_places(&self) -> u32
        ensures { result ≡ journal_left self.now }
    {
        (self.list.room().min(BOOKINGS) - self.list.count()) as u32
    }
}

impl<'a> Positions for Journal<'a> {
    ghost nets = { journal_nets };

    ghost layer = { layers.Book };

    ghost limited = { journal_limited };

    ghost absent = { journal_absent };

    fn net(&self, security: u16) -> Result<i64, Fault> {
        known(Layer::Book, security)?;
        Ok(self.sum(security))
    }

    fn all_nets(&self) -> [i64; SECURITIES] {
        self.sums()
    }
}

impl<'a> Book for Journal<'a> {
    // A booking stands in the first free place, and no other place changes.
    ghost meaning = { journal_meaning };

    ghost netted = { λ j. refl };

    ghost named = { refl };

    fn bookings_left(&self) -> u32 {
        self.free_places()
    }

    fn book(&mut self, booking: Booking) -> Result<(), Fault> {
        let net = self.sum(booking.security);
        let left = self.free_places();
        judge(Layer::Book, booking, left, net)?;
        self.list.append(booking)
    }
}
