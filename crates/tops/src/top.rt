// The top of a pile, at which calls are made one by one.
ghost use Rattle.std.specs.Prelude.{◌≡◌, false, is_ok};
ghost use Rattle.tops.specs.Tallies.{Rules, Tally, decide, fed, opened, posted, tally_account};
ghost use Rattle.trials.specs.Trials.{Taken};

use crate::call::Call;
use books::book::Book;
use terms::fault::Fault;

/// What differs from top to top is closed in its rules: what each call does is said once, by the tally.
pub trait Top: Book + Sized {
    /// The book that it is opened over.
    type Below: Book;

    /// The calls that only this top has.
    type Own;

    // What was kept, and what is on trial.
    ghost tally: { Self → Tally };

    // The layer of its faults, whether bookings go on trial, and what its own calls are.
    ghost rules: { Rules Self.Own };

    // The book beneath it.
    ghost beneath: { Self → Self.Below };

    /// A top over a book.
    fn open(below: Self::Below) -> Self
        ensures tally { tally result ≡ opened rules (Self.Below.Book.meaning.account below) }
        ensures beneath { beneath result ≡ below };

    /// A booking, or a call of its own.
    fn call(&mut self, call: &Call<Self::Own>) -> Result<(), Fault>
        ensures answer { result ≡ decide rules (tally self.old) call.now }
        ensures tally { tally self.new ≡ fed rules (tally self.old) call.now (is_ok result) }
        ensures posted { Taken Self.Below.Book.meaning (beneath self.old) (posted rules (tally self.old) call.now (is_ok result)) (beneath self.new) }
        ensures refused { is_ok result ≡ false → self.new ≡ self.old };

    /// The book beneath, as it is.
    fn close(self) -> Self::Below
        ensures { result ≡ beneath self };

    // What it holds is what is kept and what is on trial, and its bookings left are those of the tally.
    ghost shown: { (t : Self) → Self.Book.meaning.account t ≡ tally_account (tally t) };

    // Its faults carry the layer of the rules.
    ghost named: { Self.Book.meaning.layer ≡ rules.layer };
}
