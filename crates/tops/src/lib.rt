// The top of a pile of books, at which calls are made one by one.
#![tactic(auto)]

pub mod bare;
pub mod call;
pub mod top;
pub mod trial_calls;
