// A text of rows and bookings, from any reader, answered to any writer.
#![tactic(auto)]

ghost use Rattle.margins.specs.Answers.{Answers};
ghost use Rattle.std.specs.Prelude.{IfSome, OnOk};

use inputs::read_text;
use intake::telling::tell_text;
use std::alloc::Global;
use std::io;
use std::io::{Read, Write};
use terms::limits::ANSWER_MEMORY;

/// Writes the answer to the text of `input`, and nothing else: the frames of its deposit, or that of the first refusal, a text
/// that is too long included.
pub fn answer<R: Read + Drop, W: Write>(input: R, output: &mut W, heap: Global) -> io::Result<()>
    ensures { OnOk result (IfSome (R.remaining input) (λ text. Answers text (W.contents output.old) (W.contents output.new))) }
{
    let text = read_text(input, heap)?;
    let mut answer = [0; ANSWER_MEMORY];
    match tell_text(text.as_slice(), &mut answer) {
        Ok(count) => output.write_all(&answer[..count]),
        Err(_) => Ok(()),
    }
}

#[cfg(test)]
mod tests {
    use crate::answer;
    use std::io;
    use std::io::{ErrorKind, Read, Write};
    use std::test::Fail;
    use terms::limits::TEXT_LIMIT;

    // So many line feeds, at most a thousand at a time, and then the end or a read that fails. Nothing is known of them.
    #[derive(Drop)]
    struct Feeds {
        left: usize,
        fails: bool,
    }

    impl Read for Feeds {
        fn read(&mut self, buf: &mut [u8]) -> io::Result<usize> {
            if self.left == 0 && self.fails {
                return Err(ErrorKind::BrokenPipe.into());
            }
            let count = buf.len().min(self.left).min(1000);
            buf[..count].fill(b'\n');
            self.left -= count;
            Ok(count)
        }
    }

    // Takes so many bytes, then fails once, and then takes all.
    #[derive(Drop)]
    struct Pipe {
        taken: Vec<u8>,
        room: usize,
    }

    impl Write for Pipe {
        fn write(&mut self, buf: &[u8]) -> io::Result<usize> {
            if self.room == 0 {
                self.room = usize::MAX;
                return Err(ErrorKind::BrokenPipe.into());
            }
            let count = buf.len().min(self.room);
            self.taken.extend_from_slice(&buf[..count])?;
            self.room -= count;
            Ok(count)
        }

        fn flush(&mut self) -> io::Result<()> {
            Ok(())
        }
    }

    // A text of the longest is read: its first line is refused.
    #[test]
    fn the_longest_text(rt: HostRuntime) -> Result<(), Fail> {
        let mut output = Vec::new(rt.alloc());
        let feeds = Feeds {
            left: TEXT_LIMIT,
            fails: false,
        };
        answer(feeds, &mut output, rt.alloc())?;
        assert!(rt; output.as_slice() == b"461E01000000010000\n".as_slice());
        Ok(())
    }

    // One byte more is told to be too many.
    #[test]
    fn one_byte_more(rt: HostRuntime) -> Result<(), Fail> {
        let mut output = Vec::new(rt.alloc());
        let feeds = Feeds {
            left: TEXT_LIMIT + 1,
            fails: false,
        };
        answer(feeds, &mut output, rt.alloc())?;
        assert!(rt; output.as_slice() == b"462508000000000000\n".as_slice());
        Ok(())
    }

    // A read that fails in mid-stream is told, and nothing is written; the next call answers.
    #[test]
    fn a_broken_read(rt: HostRuntime) -> Result<(), Fail> {
        let mut output = Vec::new(rt.alloc());
        let broken = Feeds {
            left: 2500,
            fails: true,
        };
        let told = answer(broken, &mut output, rt.alloc());
        assert!(rt; told.is_err_and(|e| e.kind() == ErrorKind::BrokenPipe));
        assert!(rt; output.is_empty());
        answer(b"".as_slice(), &mut output, rt.alloc())?;
        assert!(rt; output.as_slice() == b"54000000000000000000000000\n".as_slice());
        Ok(())
    }

    // A write that fails in mid-stream is told; the next call writes all of its answer.
    #[test]
    fn a_broken_write(rt: HostRuntime) -> Result<(), Fail> {
        let mut output = Pipe {
            taken: Vec::new(rt.alloc()),
            room: 9,
        };
        let told = answer(b"".as_slice(), &mut output, rt.alloc());
        assert!(rt; told.is_err_and(|e| e.kind() == ErrorKind::BrokenPipe));
        assert!(rt; output.taken.as_slice() == b"540000000".as_slice());
        output.taken.clear();
        answer(b"".as_slice(), &mut output, rt.alloc())?;
        assert!(rt; output.taken.as_slice() == b"54000000000000000000000000\n".as_slice());
        Ok(())
    }
}
