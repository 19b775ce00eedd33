// Says how near the deposit of a text of rows and bookings on standard input is to the exact margin.
#![tactic(auto)]

use gaps::report::Report;
use inputs::read_text;
use std::io::{self, LineWriter, Write};

// Each line is written out by itself.
fn main(rt: HostRuntime) -> io::Result<()> {
    let text = read_text(rt.stdin(), rt.alloc())?;
    let mut lines = LineWriter::new(rt.alloc(), rt.stdout())?;
    write!(lines, "{}", Report(text.as_slice()))?;
    lines.flush()
}
