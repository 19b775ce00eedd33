// Position books: what a book means, a net table, and a journal over memory handed in.
#![tactic(auto)]

pub mod book;
pub mod booking;
pub mod journal;
pub(crate) mod judge;
pub mod ledger;
pub mod lent;
pub mod table;
