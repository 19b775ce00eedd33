// A dealer's day: the calls of a script on standard input, made at desks, and what each gave in plain words and zloty.
#![tactic(auto)]

mod answer;
mod desks;
mod kept;
mod order;
mod script;
mod session;
mod sheet;
mod spoken;
mod told;

use crate::session::Session;

// Reads the script line by line.
fn read_script(rt: &HostRuntime) -> anyhow::Result<()> {
    let mut session = Session::new(rt.alloc());
    // Kept: nothing bounds how many lines there are, so that `(1..)` could pass the last number.
    for (before, line) in rt.lines(rt.alloc()).enumerate() {
        session.read(rt, before.saturating_add(1), &line?)?;
    }
    session.close(rt)
}

fn main(rt: HostRuntime) -> anyhow::Result<()> {
    read_script(&rt)
}
