// A book that is lent, so that a layer can stand above it.
ghost use Rattle.books.specs.Books.{lent_meaning};

use crate::book::{Book, Positions};
use crate::booking::Booking;
use terms::fault::Fault;
use terms::limits::SECURITIES;

impl<'b, B: Positions> Positions for &'b mut B {
    ghost nets = { λ r. B.Positions.nets r.now };

    ghost layer = { B.Positions.layer };

    ghost limited = { λ r. B.Positions.limited r.now };

    ghost absent = { λ r. B.Positions.absent r.now };

    fn net(&self, security: u16) -> Result<i64, Fault> {
        (**self).net(security)
    }

    fn all_nets(&self) -> [i64; SECURITIES] {
        (**self).all_nets()
    }
}

impl<'b, B: Book> Book for &'b mut B {
    ghost meaning = { lent_meaning B.Book.meaning };

    ghost netted = { λ r. B.Book.netted r.now };

    ghost named = { B.Book.named };

    fn bookings_left(&self) -> u32 {
        (**self).bookings_left()
    }

    fn book(&mut self, booking: Booking) -> Result<(), Fault> {
        (**self).book(booking)
    }
}
