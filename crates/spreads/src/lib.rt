// The walk over the pairs of a sheet: what two classes match of each other, what is left of them, and what is credited for it.
#![tactic(auto)]

pub mod leg;
pub mod spread;
pub mod walk;
