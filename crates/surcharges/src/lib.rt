// Surcharges above any rate sheet, and the top of a pile of sheets at which settings are made.
#![tactic(auto)]

pub mod additions;
pub mod cover;
pub mod plain;
pub mod setting;
pub mod surcharge;
