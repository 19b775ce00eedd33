// The list itself; its methods stand in a module of their own.

mod methods;

/// The records appended so far, at the front of memory that the caller hands in.
// Kept: one list over a borrowed slice is a rule of the project: it is a slice of places, and how many of them are filled.
// Kept: no plainer: that the lender is the same after a call is no fact of one value, so that each contract says it.
#[derive(Drop)]
pub struct List<'a, T> {
    places: &'a mut [T],
    // how many places are filled, as far as there are so many
    len: usize,
}
