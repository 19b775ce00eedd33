// The exact margin of a portfolio, over any book and any rate sheet: the steps of the deposit with no rounding.
#![tactic(auto)]

mod leg;
pub mod margin;
pub(crate) mod open;
pub(crate) mod percentage;
pub(crate) mod records;
pub(crate) mod sums;
pub(crate) mod total;
pub(crate) mod value;
