// Frames: one line of hexadecimal digits each, read into a record and written from one.
#![tactic(auto)]

pub mod codec;
pub mod digits;
pub mod frame;
mod hex;
pub mod kinds;
mod narrow;
