// What a history is made of, and what each part of it gives.
use crate::telling::Telling;
use terms::fault::Fault;
use tops::call::Call;

/// A call at the top of the book, which is a booking or a call that only this top has; one that only the top of the
/// sheet has; or a call for a deposit, which is handed so many class places and so many places for matches, as far as there
/// are so many.
#[derive(Clone, Copy)]
pub enum Step<O, P> {
    Book(Call<O>),
    Sheet(P),
    Deposit { classes: usize, matches: usize },
}

/// What a step gave.
// Kept: each kind of step has an answer of its own type, which is held as it was given; one Result for both would have to be
// taken apart and made anew for each, and a tally that decides `Result<(), Fault>` could not be compared with it.
#[derive(Clone, Copy)]
pub enum Entry {
    Done(Result<(), Fault>),
    Told(Result<Telling, Fault>),
}
