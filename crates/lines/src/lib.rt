// A text of frames, line by line, with no copy of it.
#![tactic(auto)]

pub mod frame_line;
pub mod part;
pub mod reader;
pub mod text;
