// What is said of a text: how near its deposit is to the exact margin, or why it is refused.
#![tactic(auto)]

pub mod report;
mod spoken;
