// Answers the text of rows and bookings on standard input with the frames of its deposit, on standard output.
#![tactic(auto)]

use margins::answer;
use std::io;

fn main(rt: HostRuntime) -> io::Result<()> {
    answer(rt.stdin(), &mut rt.stdout(), rt.alloc())
}
