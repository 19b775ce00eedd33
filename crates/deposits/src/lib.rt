// The deposit of a portfolio, over any book and any rate sheet.
#![tactic(auto)]

pub mod deposit;
mod leg;
pub(crate) mod open;
pub mod records;
pub mod settle;
pub(crate) mod tell;
pub(crate) mod total;
pub(crate) mod walk;
