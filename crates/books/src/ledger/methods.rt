// Opening and booking.
ghost use Rattle.books.specs.Books.{Books, no_holdings};
ghost use Rattle.books.specs.Ledgers.{ledger_account, ledger_meaning, ledger_nets};
ghost use Rattle.std.specs.Prelude.{◌≡◌};

use super::Ledger;
use crate::book::{Book, Positions};
use crate::booking::Booking;
use crate::judge::judge;
use terms::fault::Fault;
use terms::layer::Layer;
use terms::limits::SECURITIES;

impl Ledger {
    // Every net is 0, and so many bookings are left.
    pub(crate) fn open(left: u32) -> Self
        ensures holdings { (ledger_account result).holdings ≡ no_holdings }
        ensures left { (ledger_account result).left ≡ left }
    {
        Ledger {
            nets: [0; SECURITIES],
            left,
        }
    }

    /// The nets of a book, with so many bookings left.
    pub fn copy_of<B: Positions>(book: &B, left: u32) -> Self
        ensures nets { ledger_nets result ≡ B.Positions.nets book.now }
        ensures left { (ledger_account result).left ≡ left }
    {
        let mut ledger = Ledger::with_nets_of(book);
        ledger.renew(left);
        ledger
    }

    /// What a book holds, with so many bookings left.
    pub fn copy_of_book<B: Book>(book: &B, left: u32) -> Self
        ensures holdings { (ledger_account result).holdings ≡ (B.Book.meaning.account book.now).holdings }
        ensures left { (ledger_account result).left ≡ left }
    {
        Ledger::copy_of(book, left)
    }

    // The nets of a book, with no booking left.
    fn with_nets_of<B: Positions>(book: &B) -> Self
        ensures nets { ledger_nets result ≡ B.Positions.nets book.now }
        ensures left { (ledger_account result).left ≡ 0 }
    {
        Ledger {
            nets: book.all_nets(),
            left: 0,
        }
    }

    /// So many bookings are left from here on; what is held does not change.
    pub fn renew(&mut self, left: u32)
        ensures holdings { (ledger_account self.new).holdings ≡ (ledger_account self.old).holdings }
        ensures left { (ledger_account self.new).left ≡ left }
    {
        self.left = left;
    }

    /// A booking, or a fault of this layer.
    pub fn book(&mut self, layer: Layer, booking: Booking) -> Result<(), Fault>
        ensures { Books (ledger_meaning layer) self.old booking result self.new }
    {
        let Booking { security, quantity } = booking;
        let net = self.net_at(security);
        judge(layer, booking, self.left, net)?;
        self.nets[security as usize] = net + quantity;
        self.left -= 1;
        Ok(())
    }
}
