// A figure as told, beside the one expected.
use std::fmt::Display;
use std::io;

// Says both, and whether they agree.
pub(crate) fn say<T: Display + PartialEq + Copy>(
    rt: &HostRuntime,
    what: &str,
    told: T,
    expected: T,
) -> io::Result<()> {
    let verdict = if told == expected {
        "as expected"
    } else {
        "NOT AS EXPECTED"
    };
    println!(rt; "{what}: {told} told, {expected} expected: {verdict}")
}
