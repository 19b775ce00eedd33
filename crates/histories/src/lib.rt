// Histories: calls made one by one at the top of a pile of books and of a pile of sheets, and the law that each keeps to.
#![tactic(auto)]

pub mod lent;
pub mod replay;
pub mod step;
pub mod telling;
