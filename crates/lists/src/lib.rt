// A list over memory that the caller hands in.
#![tactic(auto)]

pub mod list;
