// Each order beside what it gave.
ghost use Rattle.std.specs.Prelude.{◌≡◌, ◌≤◌, length, take};
ghost use Rattle.std.specs.List.{slice_get};
ghost use Rattle.std.specs.Option.{option_copied};
ghost use Rattle.replay.specs.Days.{answers_in, entries_of, orders_of};

use crate::order::Order;
use histories::step::Entry;
use terms::fault::Fault;

// Why no call is made at a desk: the log has too few places, or the desk has no call for this order.
#[derive(Clone, Copy)]
pub(crate) enum Unmade {
    Refused(Fault),
    NoCall(Order),
}

// The orders of a day, and what they gave, each at the place of its order. An entry is large, so that none is copied: they are read
// where the replay noted them.
#[derive(Clone, Copy)]
pub(crate) struct Answers<'a, 'm> {
    pub(crate) orders: &'a [Order],
    pub(crate) entries: &'m [Entry],
}

impl<'m> Answers<'_, 'm> {
    // What the call of the order at this place gave, if there is an entry for it.
    #[tactic(auto, using(crate::proofs::Beside::lent_at))]
    pub(crate) fn entry(&self, place: usize) -> Option<&'m Entry>
        ensures { option_copied result ≡ slice_get self.now.entries.now place }
    {
        self.entries.get(place)
    }
}

// An answer to each order, or why no call is made.
pub(crate) type Outcome<'a, 'm> = Result<Answers<'a, 'm>, Unmade>;

// Each order beside the entry at its place, of a memory that has a place for each.
#[tactic(auto, using(crate::proofs::Beside::orders_first, crate::proofs::Beside::entries_second))]
pub(crate) fn answers_of<'a, 'm>(orders: &'a [Order], entries: &'m [Entry]) -> Answers<'a, 'm>
    requires { length orders.now ≤ length entries.now }
    ensures orders { orders_of (answers_in result) ≡ orders.now }
    ensures entries { entries_of (answers_in result) ≡ take (length orders.now) entries.now }
{
    Answers {
        orders,
        entries: &entries[..orders.len()],
    }
}
