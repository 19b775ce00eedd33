// What the lines of a text are, in plain words and in numbers.
#![tactic(auto)]

pub mod report;
pub mod spoken;
pub mod told;
pub mod totals;
