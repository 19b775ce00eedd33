// Frames of every kind are read and written here, once.
ghost use Rattle.std.specs.Prelude.{◌≡◌, ◌+◌, ◌-◌, ◌*◌, ◌<◌, ◌≤◌, true, false, [], ◌∷◌, length, take, drop, IfOk, MatchOption, MatchResult, ◌≢◌};
ghost use Rattle.std.specs.List.{AllByRecursion};
ghost use Rattle.terms.specs.Refusals.{answer_at};
ghost use Rattle.terms.specs.declared.refusal.Refusal.TheVariants.{NotHexadecimal};
ghost use Rattle.frames.specs.Choices.{is_choice};
ghost use Rattle.frames.specs.Fields.{text_of, numbers_of, bytes};
ghost use Rattle.frames.specs.Frames.{Reads, digits_refusal, fields_refusal, frame_fault, hexadecimal, line_of, line_refusal};
ghost use Rattle.frames.specs.Hex.{are_digits, number_of};
ghost use Rattle.frames.specs.Written.{ReadsBack, written, written_answer};

use crate::digits::Digits;
use crate::frame::{Frame, MOST_FIELDS};
use crate::hex::{all_digits, byte, number, write_number};
use arrayvec::ArrayVec;
use std::convert::AsSlice;
use terms::fault::Fault;
use terms::refusal::Refusal;

/// The kind byte of a hexadecimal line, and the digits of its fields.
// Kept: no plainer: 30 alone is asked here, so that the byte may be no kind's; the enum of the kinds is `FrameLine`.
pub fn split(line: &[u8]) -> Result<(u8, Digits<'_>), Fault>
    ensures { MatchResult result (λ p. (hexadecimal line.now ≡ true) × (p.0 ≡ number_of (take 2 line.now)) × (p.1.text.now ≡ drop 2 line.now)) (λ f. (hexadecimal line.now ≡ false) × (f ≡ frame_fault NotHexadecimal)) }
{
    if line.len() % 2 != 0 || !all_digits(line) {
        return Err(Refusal::NotHexadecimal.at(0));
    }
    let [high, low, fields @ ..] = line else {
        return Err(Refusal::NotHexadecimal.at(0));
    };
    Ok((byte(*high, *low) as u8, Digits { text: fields }))
}

// Whether the second byte of these fields is one of the two choices.
// Kept: both kinds of choice have the bytes 01 and 02, so that one question for both is plainer than a type for each.
fn has_choice(fields: &[u8]) -> bool
    requires { 4 ≤ length fields.now }
    ensures { result ≡ is_choice (number_of (take 2 (drop 2 fields.now))) }
{
    match fields {
        [_, _, high, low, ..] => matches!(byte(*high, *low), 1 | 2),
        _ => false,
    }
}

/// Whether digits are the fields of a frame of one kind.
#[tactic(auto, using(crate::proofs::Sound::small_listed, crate::proofs::Sound::wide_listed))]
pub fn check<F: Frame>(fields: &[u8]) -> Result<(), Fault>
    ensures { result ≡ answer_at 0 tt (fields_refusal F.kind fields.now) }
{
    if fields.len() != 2 * (F::LENGTH - 1) {
        return Err(Refusal::WrongLength.at(0));
    }
    if F::CHOICE && !has_choice(fields) {
        return Err(Refusal::UnknownChoice.at(0));
    }
    Ok(())
}

// The numbers of the fields of these widths.
#[tactic(auto, using(crate::proofs::Framing::bytes_next, crate::proofs::Framing::digits_front, crate::proofs::Framing::digits_rest, crate::proofs::Framing::read_next))]
fn read_numbers(widths: &[usize], fields: &[u8]) -> ArrayVec<u64, MOST_FIELDS>
    requires few { length widths.now ≤ 8 }
    requires narrow { AllByRecursion (λ w. w ≤ 8) widths.now }
    requires digits { are_digits fields.now ≡ true }
    requires size { length fields.now ≡ 2 * bytes widths.now }
    ensures { result.items ≡ numbers_of widths.now fields.now }
{
    let mut numbers = ArrayVec::new();
    let mut rest = fields;
    for width in widths {
        let (field, after) = rest.split_at(2 * *width);
        numbers.push(number(field));
        rest = after;
    }
    numbers
}

// The record whose fields these digits are, if there is one.
#[tactic(auto, using(crate::proofs::Sound::few_listed, crate::proofs::Sound::narrow_listed))]
fn record<F: Frame>(fields: &[u8]) -> Option<F::Record>
    requires digits { are_digits fields.now ≡ true }
    requires size { length fields.now ≡ 2 * bytes F.kind.widths }
    ensures { MatchOption result ((x : F.Record) → F.figures x ≢ numbers_of F.kind.widths fields.now) (λ x. F.figures x ≡ numbers_of F.kind.widths fields.now) }
{
    let numbers = read_numbers(F::widths(), fields);
    F::record_of(&numbers)
}

/// The record whose fields these digits are: refusals 32 and 33. No digit is asked again.
pub fn read_digits<F: Frame>(digits: Digits<'_>) -> Result<F::Record, Fault>
    ensures { Reads (λ x. text_of F.kind.widths (F.figures x)) (digits_refusal F.kind digits.entry.text.now) digits.entry.text.now result }
{
    let fields = digits.text;
    check::<F>(fields)?;
    Ok(record::<F>(fields).unwrap())
}

/// The record whose fields these bytes are: refusals 30, 32 and 33.
pub fn read_fields<F: Frame>(fields: &[u8]) -> Result<F::Record, Fault>
    ensures { Reads (λ x. text_of F.kind.widths (F.figures x)) (digits_refusal F.kind fields.now) fields.now result }
{
    let digits = Digits::try_from(fields)?;
    read_digits::<F>(digits)
}

/// The record whose frame this line is. A reader of one kind knows no other.
pub fn read<F: Frame>(line: &[u8]) -> Result<F::Record, Fault>
    ensures { Reads (λ x. line_of F.kind (F.figures x)) (line_refusal (F.kind ∷ []) line.now) line.now result }
{
    let (kind, digits) = split(line)?;
    if kind != F::KIND {
        return Err(Refusal::UnknownKind.at(0));
    }
    read_digits::<F>(digits)
}

// Fills `line` with the digits of these numbers in fields of these widths.
// Kept: tried; in a loop that goes on with `rest = after`, nothing ties what `line` ends as to what `rest` holds.
fn write_numbers(widths: &[usize], numbers: &[u64], line: &mut [u8])
    requires count { length numbers.now ≡ length widths.now }
    requires size { length line.old ≡ 2 * bytes widths.now }
    ensures { line.new ≡ text_of widths.now numbers.now }
{
    if let ([width, widths @ ..], [n, numbers @ ..]) = (widths, numbers) {
        let (field, rest) = line.split_at_mut(2 * *width);
        write_number(field, *n);
        write_numbers(widths, numbers, rest);
    }
}

// Fills `line` with the digits of the frame of `item`.
fn write_line<F: Frame>(item: &F::Record, line: &mut [u8])
    requires { length line.old ≡ 2 + 2 * bytes F.kind.widths }
    ensures { line.new ≡ line_of F.kind (F.figures item.now) }
{
    let (kind, fields) = line.split_at_mut(2);
    write_number(kind, u64::from(F::KIND));
    write_numbers(F::widths(), F::figures_of(item).as_slice(), fields);
}

// Writes the frame of `item` and a line feed at the front of `memory`, which has room for both.
#[tactic(auto, using(crate::proofs::Sound::small_listed, crate::specs::Texts::length_line))]
fn fill<F: Frame>(item: &F::Record, memory: &mut [u8])
    requires { length (line_of F.kind (F.figures item.now)) < length memory.old }
    ensures { memory.new ≡ written (line_of F.kind (F.figures item.now)) memory.old }
{
    let (line, rest) = memory.split_at_mut(2 * F::LENGTH);
    write_line::<F>(item, line);
    rest[0] = b'\n';
}

// How many digits the frame of `item` has.
#[tactic(auto, using(crate::specs::Texts::length_line, crate::proofs::Sound::small_listed))]
fn line_length<F: Frame>(item: &F::Record) -> usize
    ensures { result ≡ length (line_of F.kind (F.figures item.now)) }
{
    2 * F::LENGTH
}

/// Writes the frame of `item` and a line feed at the front of `memory`, and tells how many bytes these are.
// Kept: no plainer: the memory is the caller's, who writes on behind these bytes, and knows by the count where.
#[tactic(auto, using(crate::proofs::Writes::read_back))]
pub fn write<F: Frame>(item: &F::Record, memory: &mut [u8]) -> Result<usize, Fault>
    ensures told { result ≡ written_answer (line_of F.kind (F.figures item.now)) memory.old }
    ensures after { memory.new ≡ written (line_of F.kind (F.figures item.now)) memory.old }
    ensures back { IfOk result (λ count. ReadsBack F.kind F.figures item.now (take (count - 1) memory.new)) }
{
    let length = line_length::<F>(item);
    if memory.len() <= length {
        return Err(Refusal::LineMemoryTooShort.at(0));
    }
    fill::<F>(item, memory);
    Ok(length + 1)
}
