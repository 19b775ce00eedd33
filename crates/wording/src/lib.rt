// Human units, for what programs print.
#![tactic(auto)]

pub mod units;
