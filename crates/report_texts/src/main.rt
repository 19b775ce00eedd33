// Prints what `inspect` and `gap` say of texts that are refused, and of texts that hold nothing, under the name of each.
#![tactic(auto)]

mod cases;

use crate::cases::CASES;
use gaps::report::Report as Gap;
use inspections::report::Report as Inspection;
use std::io;
use terms::limits::TEXT_LIMIT;

// Prints a name and what is said of a text.
fn say(rt: &HostRuntime, name: &str, text: &[u8]) -> io::Result<()> {
    println!(rt; "{name}")?;
    print!(rt; "- inspect:\n{}", Inspection(text))?;
    print!(rt; "- gap:\n{}", Gap(text))
}

fn main(rt: HostRuntime) -> io::Result<()> {
    for case in &CASES {
        say(&rt, case.name, case.text.as_bytes())?;
    }
    let long = vec![in rt.alloc(); b'0'; TEXT_LIMIT + 1]?;
    say(&rt, "37: a text too long", long.as_slice())
}
