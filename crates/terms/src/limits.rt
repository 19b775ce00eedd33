// The limits of the module. Each has one name here and one in the specifications.

/// Securities are numbered from 0.
pub const SECURITIES: usize = 256;

/// Classes are numbered from 0.
pub const CLASSES: usize = 64;

/// The most pairs of a sheet.
pub const PAIRS: usize = 32;

/// The most bookings of a net table or a journal.
pub const BOOKINGS: usize = 4_096;

/// The most bookings of a trial layer between two commits or drops.
pub const TRIAL_BOOKINGS: usize = 1_000;

/// A net is at most this far from 0.
pub const NET_LIMIT: i64 = 100_000_000;

/// The quantity of a booking is at most this far from 0.
pub const QUANTITY_LIMIT: i64 = 200_000_000;

/// 100% in units of 10^-5 of the whole.
pub const WHOLE: u32 = 100_000;

/// The highest price, in 10^-4 of the quotation currency.
pub const PRICE_LIMIT: u32 = 300_000_000;

/// The highest currency rate, in 10^-4 zloty.
pub const RATE_LIMIT: u32 = 200_000;

/// The longest duration, in 10^-6.
pub const DURATION_LIMIT: u32 = 30_000_000;

/// The duration of every security of a liquidity class: 1.
pub const DURATION_ONE: u32 = 1_000_000;

/// A bond counts with at least this duration: 0.5.
pub const DURATION_FLOOR: u32 = 500_000;

/// The largest amount of a position, in 10^-4 zloty.
pub const AMOUNT_LIMIT: u64 = 100_000_000_000_000;

/// The longest text, in bytes.
pub const TEXT_LIMIT: usize = 65_536;

/// The least memory for the answer to a text, in bytes.
pub const ANSWER_MEMORY: usize = 5_500;
