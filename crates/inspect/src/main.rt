// Says in plain words what the frames of a text on standard input are.
#![tactic(auto)]

use inputs::read_text;
use inspections::report::Report;
use std::io::{self, LineWriter, Write};

// Each line is written out by itself.
fn main(rt: HostRuntime) -> io::Result<()> {
    let text = read_text(rt.stdin(), rt.alloc())?;
    let mut lines = LineWriter::new(rt.alloc(), rt.stdout())?;
    write!(lines, "{}", Report(text.as_slice()))?;
    lines.flush()
}
