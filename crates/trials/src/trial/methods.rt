// Opening, booking, committing and dropping.
ghost use Rattle.std.specs.Prelude.{◌≡◌, refl, ℕ, ◌+◌, ◌<◌, ◌≤◌, pos, slice_index_or, true};
ghost use Rattle.books.specs.Ledgers.{ledger_absent, ledger_limited};
ghost use Rattle.terms.specs.Limits.{security_count, trial_limit};
ghost use Rattle.terms.specs.declared.layer.Layer.TheVariants as layers;
ghost use Rattle.trials.specs.Trials.{Commits, Taken, laid, moves, nonzero, posting, postings, trial_account, trial_meaning, trial_nets};

use super::Trial;
use books::book::{Book, Positions};
use books::booking::Booking;
use books::ledger::Ledger;
use terms::fault::Fault;
use terms::layer::Layer;
use terms::limits::{SECURITIES, TRIAL_BOOKINGS};
use terms::refusal::Refusal;

impl<B: Book> Trial<B> {
    /// Every trial quantity is 0, and 1,000 bookings are left.
    pub fn open(below: B) -> Self
        ensures below { result.below ≡ below }
        ensures holdings { (trial_account result).holdings ≡ (B.Book.meaning.account below).holdings }
        ensures left { (trial_account result).left ≡ trial_limit }
    {
        let above = Ledger::copy_of_book(&below, TRIAL_BOOKINGS as u32);
        Trial { below, above }
    }

    /// The book below, as it is.
    pub fn into_below(self) -> B
        ensures { result ≡ self.below }
    {
        let Trial { below, above: _ } = self;
        below
    }

    // What the layer has above the book below, of each security.
    fn quantities(&self) -> [i64; SECURITIES]
        ensures { (s : ℕ) → s < security_count → slice_index_or result s (pos 0) ≡ (laid B.Book.meaning self.now s).net }
    {
        let mut quantities = self.below.all_nets();
        // Kept: tried; of a number that is written through `iter_mut` the proof knows less than of one written at its place.
        for security in 0..SECURITIES {
            quantities[security] = self.above.net_at(security as u16) - quantities[security];
        }
        quantities
    }

    // How many of its trial quantities are other than 0.
    fn trial_count(&self, quantities: &[i64; SECURITIES]) -> u32
        requires { (s : ℕ) → s < security_count → slice_index_or quantities.now s (pos 0) ≡ (laid B.Book.meaning self.now s).net }
        ensures { result ≡ nonzero (laid B.Book.meaning self.now) }
    {
        quantities.iter().filter(|quantity| **quantity != 0).count() as u32
    }

    // Posts the trial quantity of a security, where it is other than 0. It is not refused: the net below comes to the net of
    // the layer, which keeps to the limit.
    fn post_one(&mut self, security: u16, quantity: i64)
        requires known { security < security_count }
        requires quantity { quantity ≡ (laid B.Book.meaning self.old security).net }
        requires room { moves (laid B.Book.meaning self.old) security ≡ true → 0 < (B.Book.meaning.account self.old.below).left }
        ensures above { self.new.above ≡ self.old.above }
        ensures taken { Taken B.Book.meaning self.old.below (posting (laid B.Book.meaning self.old) security) self.new.below }
    {
        if quantity != 0 {
            self.below.book(Booking { security, quantity }).unwrap();
        }
    }

    // Posts one booking for each trial quantity other than 0, by rising security. The book below comes to the nets of the
    // layer.
    #[tactic(auto, using(crate::proofs::Posting::walked_none, crate::proofs::Posting::walked_room, crate::proofs::Posting::walked_quantity, crate::proofs::Posting::walked_next))]
    fn post(&mut self, quantities: &[i64; SECURITIES])
        requires room { nonzero (laid B.Book.meaning self.old) ≤ (B.Book.meaning.account self.old.below).left }
        requires quantities { (s : ℕ) → s < security_count → slice_index_or quantities.now s (pos 0) ≡ (laid B.Book.meaning self.old s).net }
        ensures above { self.new.above ≡ self.old.above }
        ensures still { (trial_account self.new).holdings ≡ (trial_account self.old).holdings }
        ensures holdings { (B.Book.meaning.account self.new.below).holdings ≡ (trial_account self.old).holdings }
        ensures left { (B.Book.meaning.account self.new.below).left + nonzero (laid B.Book.meaning self.old) ≡ (B.Book.meaning.account self.old.below).left }
        ensures taken { Taken B.Book.meaning self.old.below (postings (laid B.Book.meaning self.old) security_count) self.new.below }
    {
        for security in 0..SECURITIES as u16 {
            self.post_one(security, quantities[security as usize]);
        }
    }

    /// Posts the trial quantities to the book below, and gives back all bookings of the layer.
    pub fn commit(&mut self) -> Result<(), Fault>
        ensures { Commits B.Book.meaning self.old result self.new }
    {
        let quantities = self.quantities();
        if self.below.bookings_left() < self.trial_count(&quantities) {
            return Err(Refusal::TooFewBookingsBelow.at(0));
        }
        self.post(&quantities);
        self.above.renew(TRIAL_BOOKINGS as u32);
        Ok(())
    }

    /// Sets every trial quantity to 0, and gives back all bookings of the layer.
    pub fn drop_trial(&mut self)
        ensures below { self.new.below ≡ self.old.below }
        ensures holdings { (trial_account self.new).holdings ≡ (B.Book.meaning.account self.old.below).holdings }
        ensures left { (trial_account self.new).left ≡ trial_limit }
    {
        self.above = Ledger::copy_of_book(&self.below, TRIAL_BOOKINGS as u32);
    }
}

impl<B: Book> Positions for Trial<B> {
    ghost nets = { trial_nets };

    ghost layer = { layers.Trial };

    ghost limited = { λ t. ledger_limited t.above };

    ghost absent = { λ t. ledger_absent t.above };

    fn net(&self, security: u16) -> Result<i64, Fault> {
        self.above.net(Layer::Trial, security)
    }

    fn all_nets(&self) -> [i64; SECURITIES] {
        self.above.nets()
    }
}

impl<B: Book> Book for Trial<B> {
    // A booking leaves the book below as it is.
    ghost meaning = { trial_meaning };

    ghost netted = { λ t. refl };

    ghost named = { refl };

    fn bookings_left(&self) -> u32 {
        self.above.bookings_left()
    }

    fn book(&mut self, booking: Booking) -> Result<(), Fault> {
        self.above.book(Layer::Trial, booking)
    }
}
