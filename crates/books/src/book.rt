// What every book of positions shows of itself.
ghost use Rattle.std.specs.Prelude.{◌≡◌, ℕ, ◌<◌, ◌≤◌, ℤ, pos, slice_index_or};
ghost use Rattle.books.specs.Books.{Books, Meaning, Within, nets_of, reading_refusal};
ghost use Rattle.terms.specs.Limits.{net_limit, security_count};
ghost use Rattle.terms.specs.Questions.{answer};
ghost use Rattle.terms.specs.declared.layer.Layer.{Layer};

use crate::booking::Booking;
use std::array;
use terms::fault::Fault;
use terms::limits::SECURITIES;

/// The reading half: the signed net of each security.
pub trait Positions {
    // The net of each security, bought positive.
    ghost nets: { Self → ℕ → ℤ };

    // The layer that its faults carry.
    ghost layer: { Layer };

    // Each net keeps to its limit.
    ghost limited: { (b : Self) (s : ℕ) → Within net_limit (nets b s) };

    // There are no securities past the last.
    ghost absent: { (b : Self) (s : ℕ) → security_count ≤ s → nets b s ≡ pos 0 };

    /// The net of a security.
    fn net(&self, security: u16) -> Result<i64, Fault>
        ensures { result ≡ answer layer security (nets self.now security) (reading_refusal security) };

    /// The nets of all securities at once. A book that has to add them up does so in one pass.
    fn all_nets(&self) -> [i64; SECURITIES]
        ensures { (s : ℕ) → s < security_count → slice_index_or result s (pos 0) ≡ nets self.now s }
    {
        array::from_fn(|security| self.net(security as u16).unwrap_or(0))
    }
}

/// A book takes bookings, each of which moves what is held of one security.
pub trait Book: Positions {
    // What the book means: what is held, how many bookings are left, and what an accepted booking does to the whole value.
    ghost meaning: { Meaning Self };

    /// How many more bookings the book takes.
    fn bookings_left(&self) -> u32
        ensures { result ≡ (meaning.account self.now).left };

    /// Adds a booking to what is held of its security.
    fn book(&mut self, booking: Booking) -> Result<(), Fault>
        ensures { Books meaning self.old booking result self.new };

    // Its nets are those of what is held.
    ghost netted: { (b : Self) → Self.Positions.nets b ≡ nets_of (meaning.account b) };

    // A booking is refused in the layer in which a reading is.
    ghost named: { meaning.layer ≡ Self.Positions.layer };
}

/// The net of a security, and 0 where there is no such security.
pub fn net_of<B: Positions>(book: &B, security: u16) -> i64
    ensures { result ≡ B.Positions.nets book.now security }
{
    book.net(security).unwrap_or(0)
}
