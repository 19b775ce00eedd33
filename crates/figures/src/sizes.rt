// Bounds on the numbers of a margin.
use crate::told::say;
use rules::laws::margin_bounds;
use std::io;
use wording::units::{Amount, Money};

// Each beside what docs/rules.md says.
pub(crate) fn sizes(rt: &HostRuntime) -> io::Result<()> {
    let told = margin_bounds();
    println!(rt; "bounds on the numbers of a margin")?;
    say(
        rt,
        "  V of a position",
        Amount(told.value),
        Amount(3_000_000_000_000_000),
    )?;
    say(
        rt,
        "  K + S of a class",
        Amount(told.sums),
        Amount(768_000_000_000_000_000),
    )?;
    say(
        rt,
        "  three risks of a class",
        Money(told.deposit),
        Money(23_040_000_000_000_003),
    )?;
    say(
        rt,
        "  DSPAN",
        Money(told.span),
        Money(1_474_560_000_000_000_192),
    )
}
