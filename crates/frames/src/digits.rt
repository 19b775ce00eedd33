// Text that was asked once whether it is hexadecimal, so that nothing behind asks it again.
ghost use Rattle.std.specs.Prelude.{◌≡◌, true, false, MatchResult};
ghost use Rattle.terms.specs.declared.refusal.Refusal.TheVariants.{NotHexadecimal};
ghost use Rattle.frames.specs.Frames.{frame_fault};
ghost use Rattle.frames.specs.Hex.{are_digits};

use crate::hex::all_digits;
use terms::fault::Fault;
use terms::refusal::Refusal;

/// A part of a text, all of it digits.
#[derive(Clone, Copy)]
pub struct Digits<'a> {
    pub text: &'a [u8],
    ghost asked: { are_digits text.now ≡ true },
}

impl<'a> TryFrom<&'a [u8]> for Digits<'a> {
    type Error = Fault;

    ghost try_from_gives = { λ text result. MatchResult result (λ digits. (are_digits text.now ≡ true) × (digits.text.now ≡ text.now)) (λ f. (are_digits text.now ≡ false) × (f ≡ frame_fault NotHexadecimal)) };

    // The text, if all of it is digits.
    fn try_from(text: &'a [u8]) -> Result<Digits<'a>, Fault> {
        if !all_digits(text) {
            return Err(Refusal::NotHexadecimal.at(0));
        }
        Ok(Digits { text })
    }
}
