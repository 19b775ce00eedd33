// Answers texts that show the answers and the refusals which a text can meet, and prints each answer under its name.
#![tactic(auto)]

mod cases;

use crate::cases::{CASES, Case};
use intake::telling::tell_text;
use std::alloc::{AllocError, Global};
use std::io;
use std::io::Write;
use terms::limits::ANSWER_MEMORY;

// The text of a case.
fn text_of(heap: Global, case: &Case) -> Result<Vec<u8>, AllocError> {
    let mut text = Vec::new(heap);
    text.extend_from_slice(case.head.as_bytes())?;
    if let Some((part, times)) = case.repeated {
        text.extend_from_slice(part.repeat(heap, times)?.as_bytes())?;
    }
    Ok(text)
}

// Prints the name of a case and the answer to its text.
fn say(rt: &HostRuntime, case: &Case) -> io::Result<()> {
    let text = text_of(rt.alloc(), case)?;
    let mut answer = [0; ANSWER_MEMORY];
    println!(rt; "{}", case.name)?;
    match tell_text(text.as_slice(), &mut answer) {
        Ok(count) => rt.stdout().write_all(&answer[0..count]),
        Err(_) => println!(rt; "refused"),
    }
}

fn main(rt: HostRuntime) -> io::Result<()> {
    for case in &CASES {
        say(&rt, case)?;
    }
    Ok(())
}
