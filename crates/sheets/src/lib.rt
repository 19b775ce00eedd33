// Rate sheets: what a sheet means, drafts that take rows, and sheets in force that are read.
#![tactic(auto)]

pub mod draft;
pub mod duration_rates;
pub mod pairs;
pub mod rate_sheet;
pub mod rates;
pub mod reading;
pub mod sheet;
mod table;
