// Hexadecimal digits and the numbers that they write: upper case only, high digit first.
ghost use Rattle.std.specs.Prelude.{◌≡◌, ◌%◌, ◌≤◌, true, [], ◌∷◌, length};
ghost use Rattle.frames.specs.Hex.{digit_of, value_of, are_digits, number_of, digits_of};

// The value of each code as a digit, and 16 where it is none.
// Kept: no plainer that is as fast: this is looked up for each byte of a text, and a match of two ranges takes longer.
const VALUES: [u8; 256] = [
    16, 16, 16, 16, 16, 16, 16, 16, 16, 16, 16, 16, 16, 16, 16, 16, 16, 16, 16, 16, 16, 16, 16, 16,
    16, 16, 16, 16, 16, 16, 16, 16, 16, 16, 16, 16, 16, 16, 16, 16, 16, 16, 16, 16, 16, 16, 16, 16,
    0, 1, 2, 3, 4, 5, 6, 7, 8, 9, 16, 16, 16, 16, 16, 16, 16, 10, 11, 12, 13, 14, 15, 16, 16, 16,
    16, 16, 16, 16, 16, 16, 16, 16, 16, 16, 16, 16, 16, 16, 16, 16, 16, 16, 16, 16, 16, 16, 16, 16,
    16, 16, 16, 16, 16, 16, 16, 16, 16, 16, 16, 16, 16, 16, 16, 16, 16, 16, 16, 16, 16, 16, 16, 16,
    16, 16, 16, 16, 16, 16, 16, 16, 16, 16, 16, 16, 16, 16, 16, 16, 16, 16, 16, 16, 16, 16, 16, 16,
    16, 16, 16, 16, 16, 16, 16, 16, 16, 16, 16, 16, 16, 16, 16, 16, 16, 16, 16, 16, 16, 16, 16, 16,
    16, 16, 16, 16, 16, 16, 16, 16, 16, 16, 16, 16, 16, 16, 16, 16, 16, 16, 16, 16, 16, 16, 16, 16,
    16, 16, 16, 16, 16, 16, 16, 16, 16, 16, 16, 16, 16, 16, 16, 16, 16, 16, 16, 16, 16, 16, 16, 16,
    16, 16, 16, 16, 16, 16, 16, 16, 16, 16, 16, 16, 16, 16, 16, 16, 16, 16, 16, 16, 16, 16, 16, 16,
    16, 16, 16, 16, 16, 16, 16, 16, 16, 16, 16, 16, 16, 16,
];

// The code of each digit, by its value.
const DIGITS: [u8; 16] = [
    b'0', b'1', b'2', b'3', b'4', b'5', b'6', b'7', b'8', b'9', b'A', b'B', b'C', b'D', b'E', b'F',
];

// The value of the digit whose code is `code`, and 16 where it is no digit.
// Kept: an Option is no plainer: a number is defined with 16 for what is no digit, so `byte` and `number` would put it back.
#[tactic(auto, using(crate::proofs::Valued::value_at))]
pub(crate) fn value(code: u8) -> u8
    ensures { result ≡ value_of code }
{
    VALUES[code as usize]
}

// The digit of the last four bits of `bits`.
#[tactic(auto, using(crate::proofs::Valued::digit_at))]
pub(crate) fn digit(bits: u8) -> u8
    ensures { result ≡ digit_of (bits % 16) }
{
    DIGITS[(bits % 16) as usize]
}

// The byte of two digits.
// Kept: from_str_radix is no plainer: it reads a &str and answers a Result, and these are bytes that were asked already.
pub(crate) fn byte(high: u8, low: u8) -> u16
    ensures { result ≡ number_of (high ∷ low ∷ []) }
{
    16 * u16::from(value(high)) + u16::from(value(low))
}

// Whether every code of `text` is a digit.
// Kept: no plainer that is as fast: `all` stops at the first code that is none, so that it tests one at a time.
#[tactic(auto, using(crate::proofs::Valued::bits_next))]
pub(crate) fn all_digits(text: &[u8]) -> bool
    ensures { result ≡ are_digits text.now }
{
    let mut bits = 0;
    for code in text {
        bits |= value(*code);
    }
    bits < 16
}

// The number that the digits of `field` write.
// Kept: from_str_radix is no plainer, for the same reason.
#[tactic(auto, using(crate::specs::Numbers::digit_small, crate::specs::Numbers::hex_from, crate::specs::Numbers::number_next, crate::specs::Numbers::number_room))]
pub(crate) fn number(field: &[u8]) -> u64
    requires digits { are_digits field.now ≡ true }
    requires width { length field.now ≤ 16 }
    ensures { result ≡ number_of field.now }
{
    let mut n: u64 = 0;
    for code in field {
        n = n * 16 + u64::from(value(*code));
    }
    n
}

// Fills `field` with the last digits of `n`, as many as it has places.
// Kept: tried; after rev, as after any adapter of iter_mut, a proof knows the length of `field` alone, and not what it holds.
pub(crate) fn write_number(field: &mut [u8], n: u64)
    ensures { field.new ≡ digits_of (length field.old) n }
{
    if let Some((last, front)) = field.split_last_mut() {
        *last = digit((n % 16) as u8);
        write_number(front, n / 16);
    }
}
