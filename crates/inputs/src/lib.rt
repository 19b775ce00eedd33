// The text that a program is given.
#![tactic(auto)]

ghost use Rattle.std.specs.Prelude.{◌≡◌, ◌+◌, ◌≤◌, take, IfOk, IfSome, vec_len};
ghost use Rattle.terms.specs.Limits.{text_limit};

use std::alloc::Global;
use std::io;
use std::io::Read;
use terms::limits::TEXT_LIMIT;

// The first bytes of `input`, at most so many.
fn read_first<R: Read + Drop>(input: R, most: usize, heap: Global) -> io::Result<Vec<u8>>
    ensures front { IfOk result (λ text. IfSome (R.remaining input) (λ bytes. text.items ≡ take most bytes)) }
    ensures size { IfOk result (λ text. vec_len text ≤ most) }
{
    let mut text = Vec::new(heap);
    let _ = input.take(most as u64).read_to_end(&mut text)?;
    // Kept: nothing is known of how many bytes a reader gives whose bytes are not known, not even through `take`.
    text.truncate(most);
    Ok(text)
}

/// The text of `input`: at most one byte more than a text may have, which tells that it is too long.
pub fn read_text<R: Read + Drop>(input: R, heap: Global) -> io::Result<Vec<u8>>
    ensures front { IfOk result (λ text. IfSome (R.remaining input) (λ bytes. text.items ≡ take (text_limit + 1) bytes)) }
    ensures size { IfOk result (λ text. vec_len text ≤ text_limit + 1) }
{
    read_first(input, TEXT_LIMIT + 1, heap)
}

#[cfg(test)]
mod tests {
    use crate::read_text;
    use std::test::Fail;
    use terms::limits::TEXT_LIMIT;

    #[test]
    fn a_short_text_whole(rt: HostRuntime) -> Result<(), Fail> {
        let text = read_text(b"42\n".as_slice(), rt.alloc())?;
        assert!(rt; text.as_slice() == b"42\n".as_slice());
        Ok(())
    }

    // One byte too many is enough to tell that a text is too long.
    #[test]
    fn a_long_text_cut(rt: HostRuntime) -> Result<(), Fail> {
        let long = vec![in rt.alloc(); b'.'; TEXT_LIMIT + 5]?;
        let text = read_text(long.as_slice(), rt.alloc())?;
        assert_eq!(rt; text.len(), TEXT_LIMIT + 1);
        Ok(())
    }
}
