// A book that keeps each net in a table.
ghost use Rattle.books.specs.Books.{no_holdings, no_more};
ghost use Rattle.books.specs.Ledgers.{ledger_absent, ledger_account, ledger_limited, ledger_nets};
ghost use Rattle.terms.specs.Limits.{booking_limit};
ghost use Rattle.terms.specs.declared.layer.Layer.TheVariants as layers;
ghost use Rattle.std.specs.Prelude.{◌≡◌, refl};

use crate::book::{Book, Positions};
use crate::booking::Booking;
use crate::ledger::Ledger;
use terms::fault::Fault;
use terms::layer::Layer;
use terms::limits::{BOOKINGS, SECURITIES};

/// The net table.
#[derive(Drop)]
pub struct NetTable {
    ledger: Ledger,
}

impl NetTable {
    /// Every net is 0, and 4,096 bookings are left.
    pub fn open() -> Self
        ensures holdings { (ledger_account result.ledger).holdings ≡ no_holdings }
        ensures left { (ledger_account result.ledger).left ≡ booking_limit }
    {
        NetTable {
            ledger: Ledger::open(BOOKINGS as u32),
        }
    }
}

impl Positions for NetTable {
    ghost nets = { λ b. ledger_nets b.ledger };

    ghost layer = { layers.Book };

    ghost limited = { λ b. ledger_limited b.ledger };

    ghost absent = { λ b. ledger_absent b.ledger };

    fn net(&self, security: u16) -> Result<i64, Fault> {
        self.ledger.net(Layer::Book, security)
    }

    fn all_nets(&self) -> [i64; SECURITIES] {
        self.ledger.nets()
    }
}

impl Book for NetTable {
    ghost meaning = { record { account = λ b. ledger_account b.ledger; posts = no_more; layer = layers.Book } };

    ghost netted = { λ b. refl };

    ghost named = { refl };

    fn bookings_left(&self) -> u32 {
        self.ledger.bookings_left()
    }

    fn book(&mut self, booking: Booking) -> Result<(), Fault> {
        self.ledger.book(Layer::Book, booking)
    }
}
