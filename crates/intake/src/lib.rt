// A whole text of rows and bookings to its answer, and the call that C makes.
#![tactic(auto)]

pub mod answer;
pub mod export;
mod settling;
pub mod telling;
mod writing;
