// A deposit beside the exact margin, to the last digit.
#![tactic(auto)]

pub mod measure;
pub mod record;
pub mod units;
