// The words that every part of the module shares: refusals, layers and faults, choices, limits, and kinds of money.
#![tactic(auto)]

pub mod choice;
pub mod fault;
pub mod layer;
pub mod limits;
pub mod money;
pub mod refusal;
pub mod unknown;
