// Trial layers above any book.
#![tactic(auto)]

pub mod trial;
