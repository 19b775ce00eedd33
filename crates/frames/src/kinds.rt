// The kinds of frames, each with its record.
mod booking;
mod class;
mod deposit;
mod fault;
mod pair;
mod security;
mod total;

pub use booking::{BookingFrame, BookingRecord};
pub use class::{ClassFrame, ClassRecord};
pub use deposit::{DepositFrame, DepositRecord};
pub use fault::{FaultFrame, FaultRecord};
pub use pair::{PairFrame, PairRecord};
pub use security::{SecurityFrame, SecurityRecord};
pub use total::{TotalFrame, TotalRecord};
