// The positions of a portfolio: what each held security is worth, and what its classes sum to.
#![tactic(auto)]

pub mod class_sum;
pub mod class_sums;
pub mod portfolio;
pub mod position;
pub(crate) mod table;
pub(crate) mod value;
