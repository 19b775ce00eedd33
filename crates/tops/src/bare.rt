// A book with no trial layer above it.
ghost use Rattle.std.specs.Prelude.{◌≡◌, refl, false, is_ok};
ghost use Rattle.tops.specs.Shown.{bare_shown};
ghost use Rattle.tops.specs.Tallies.{bare_rules, bare_tally, decide, fed, posted};
ghost use Rattle.trials.specs.Trials.{Taken};

use crate::call::Call;
use crate::top::Top;
use books::book::{Book, Positions};
use books::booking::Booking;
use std::convert::Infallible;
use terms::fault::Fault;
use terms::limits::SECURITIES;

/// The book itself.
#[derive(Drop)]
pub struct Bare<B: Book> {
    book: B,
}

impl<B: Book> Bare<B> {
    /// The book as it is.
    pub fn open(book: B) -> Self
        ensures { result.book ≡ book }
    {
        Bare { book }
    }

    // A booking, by the tally.
    fn take(&mut self, booking: Booking) -> Result<(), Fault>
        ensures answer { result ≡ decide (bare_rules B.Book.meaning.layer) (bare_tally (B.Book.meaning.account self.old.book)) (Call.Book booking) }
        ensures tally { bare_tally (B.Book.meaning.account self.new.book) ≡ fed (bare_rules B.Book.meaning.layer) (bare_tally (B.Book.meaning.account self.old.book)) (Call.Book booking) (is_ok result) }
        ensures posted { Taken B.Book.meaning self.old.book (posted (bare_rules B.Book.meaning.layer) (bare_tally (B.Book.meaning.account self.old.book)) (Call.Book booking) (is_ok result)) self.new.book }
        ensures refused { is_ok result ≡ false → self.new ≡ self.old }
    {
        self.book(booking)
    }
}

impl<B: Book> Positions for Bare<B> {
    ghost nets = { λ b. B.Positions.nets b.book };

    ghost layer = { B.Positions.layer };

    ghost limited = { λ b. B.Positions.limited b.book };

    ghost absent = { λ b. B.Positions.absent b.book };

    fn net(&self, security: u16) -> Result<i64, Fault> {
        self.book.net(security)
    }

    fn all_nets(&self) -> [i64; SECURITIES] {
        self.book.all_nets()
    }
}

impl<B: Book> Book for Bare<B> {
    ghost meaning = { record { account = λ b. B.Book.meaning.account b.book; posts = λ b k c. B.Book.meaning.posts b.book k c.book; layer = B.Book.meaning.layer } };

    ghost netted = { λ b. B.Book.netted b.book };

    ghost named = { B.Book.named };

    fn bookings_left(&self) -> u32 {
        self.book.bookings_left()
    }

    fn book(&mut self, booking: Booking) -> Result<(), Fault> {
        self.book.book(booking)
    }
}

impl<B: Book> Top for Bare<B> {
    type Below = B;

    // There are no other calls.
    type Own = Infallible;

    ghost tally = { λ b. bare_tally (B.Book.meaning.account b.book) };

    ghost rules = { bare_rules B.Book.meaning.layer };

    ghost beneath = { λ b. b.book };

    ghost shown = { λ b. bare_shown (B.Book.meaning.account b.book) };

    ghost named = { refl };

    fn open(below: B) -> Self {
        Bare::open(below)
    }

    fn close(self) -> B {
        let Bare { book } = self;
        book
    }

    fn call(&mut self, call: &Call<Infallible>) -> Result<(), Fault> {
        // Kept: no plainer: a call is data that scripts write down and the tally judges; a closure could not be compared.
        match call {
            Call::Book(booking) => self.take(*booking),
            Call::Own(own) => match *own {},
        }
    }
}
