// What the rows of a sheet and the margin are, the theorems about them, and the arithmetic on machine numbers.
#![tactic(auto)]

pub mod laws;
pub mod leftover;
pub mod position;
pub mod rows;
