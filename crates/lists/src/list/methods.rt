// Opening, appending, clearing, counting and reading.
ghost use Rattle.std.specs.Prelude.{◌≡◌, ℕ, ◌+◌, ◌<◌, [], ◌∷◌, ◌++◌, length, take, slice_set};
ghost use Rattle.lists.specs.Lists.{items, lender, memory, Appends, Cleared, Reads};

use super::List;
use terms::fault::Fault;
use terms::refusal::Refusal;

// The first `len` places, as far as there are so many.
fn filled<T>(places: &[T], len: usize) -> &[T]
    ensures { result.now ≡ take len places.now }
{
    &places[..len.min(places.len())]
}

// Writes `x` into the place `at`.
fn put<T: Drop>(places: &mut [T], at: usize, x: T)
    requires { at < length places.old }
    ensures memory { places.new ≡ slice_set places.old at x }
    ensures front { (len : ℕ) → at ≡ length (take len places.old) → take (at + 1) places.new ≡ take len places.old ++ x ∷ [] }
{
    places[at] = x;
}

impl<'a, T> List<'a, T> {
    /// The empty list over `places`.
    pub fn over(places: &'a mut [T]) -> List<'a, T>
        ensures lender { lender result ≡ places.entry.ghost_name }
        ensures memory { memory result ≡ places.old }
        ensures items { items result ≡ [] }
    {
        List { places, len: 0 }
    }

    /// How many records there are.
    pub fn count(&self) -> usize
        ensures { result ≡ length (items self.now) }
    {
        self.records().len()
    }

    /// The records, the oldest first.
    pub fn records(&self) -> &[T]
        ensures { result.now ≡ items self.now }
    {
        filled(self.places, self.len)
    }

    /// How many places there are, filled or free.
    pub fn room(&self) -> usize
        ensures { result ≡ length (memory self.now) }
    {
        self.places.len()
    }

    /// No record is left; the memory stays as it is.
    pub fn clear(&mut self)
        ensures lender { lender self.new ≡ lender self.old }
        ensures cleared { Cleared self.old self.new }
    {
        self.len = 0;
    }
}

impl<'a, T: Drop> List<'a, T> {
    /// One record more, or a refusal where no place is free.
    pub fn append(&mut self, x: T) -> Result<(), Fault>
        ensures lender { lender self.new ≡ lender self.old }
        ensures cases { Appends x self.old self.new result }
    {
        // Kept: tried; after `get_mut` nothing is known of what the slice ends as, so that the place is asked for before it is written.
        let at = self.count();
        if at >= self.room() {
            return Err(Refusal::NoSuchPlace.at(0));
        }
        put(self.places, at, x);
        self.len = at + 1;
        Ok(())
    }
}

impl<'a, T: Copy> List<'a, T> {
    /// The record at `at`, or a refusal where that place is not filled.
    pub fn read(&self, at: usize) -> Result<T, Fault>
        ensures { Reads (items self.now) at result }
    {
        self.records()
            .get(at)
            .copied()
            .ok_or(Refusal::NoSuchPlace.at(0))
    }
}
