// The lines of a text, each taken into the rows of a draft or booked on a net table.
#![tactic(auto)]

mod fields;
pub mod intake;
pub mod line_fault;
pub mod text;
