// The lines of a text, each a part of that text.
ghost use Rattle.std.specs.Prelude.{◌≡◌, ◌≤◌, [], ◌∷◌, length, drop, MatchOption, ⊤};
ghost use Rattle.std.specs.Iterator.{MakesProgress, item_count};
ghost use Rattle.std.specs.List.{AllByRecursion};
ghost use Rattle.lines.specs.Lines.{first_line, after_line, lines_of, Unbroken, fed, closed, rest_of, lines_left, places_left, with_places, GivesFirst};

use crate::part::Part;
use memchr::memchr;

/// A text that is read line by line.
// Kept: a rule of the project: the line reader is a struct over the text with a cursor, and a line tells its place.
#[derive(Drop)]
pub struct LineReader<'a> {
    text: &'a [u8],
    at: usize,
}

// The length of the first line of `text`, its line feed not counted.
#[tactic(auto, using(crate::proofs::Feeds::first_within, crate::proofs::Feeds::found_length))]
fn line_length(text: &[u8]) -> usize
    ensures is { result ≡ length (first_line text.now) }
    ensures within { result ≤ length text.now }
{
    memchr(b'\n', text).unwrap_or(text.len())
}

// The line of `text` that starts at `start`, and where the next one does; none where no bytes are left.
fn line_from(text: &[u8], start: usize) -> Option<(&[u8], usize)>
    ensures line { MatchOption result (drop start text.now ≡ []) (λ p. p.0.now ≡ first_line (drop start text.now)) }
    ensures lines { MatchOption result (lines_of (drop start text.now) ≡ []) (λ p. lines_of (drop start text.now) ≡ p.0.now ∷ lines_of (drop p.1 text.now)) }
    ensures after { MatchOption result (after_line (drop start text.now) ≡ []) (λ p. drop p.1 text.now ≡ after_line (drop start text.now)) }
    ensures place { MatchOption result (with_places start (lines_of (drop start text.now)) ≡ []) (λ p. with_places start (lines_of (drop start text.now)) ≡ record { place = start; line = p.0.now } ∷ with_places p.1 (lines_of (drop p.1 text.now))) }
{
    // Kept: no plainer: `get` gives an empty rest at the end of the text, which is no line, so that this would be asked of it.
    if start >= text.len() {
        return None;
    }
    let end = start + line_length(&text[start..]);
    let next = (end + 1).min(text.len());
    Some((&text[start..end], next))
}

impl<'a> LineReader<'a> {
    /// All of `text` is still to be read.
    #[tactic(auto, using(crate::proofs::Feeds::lines_few, crate::proofs::Feeds::lines_joined, crate::proofs::Feeds::lines_unbroken))]
    pub fn new(text: &'a [u8]) -> LineReader<'a>
        ensures text { result.text ≡ text.entry }
        ensures start { result.at ≡ 0 }
        ensures rest { rest_of result ≡ text.now }
        ensures joined { fed (lines_left result) ≡ closed text.now }
        ensures unbroken { AllByRecursion Unbroken (lines_left result) }
        ensures places { places_left result ≡ with_places 0 (lines_of text.now) }
        ensures few { length (lines_left result) ≤ length text.now }
    {
        LineReader { text, at: 0 }
    }
}

impl<'a> Iterator for LineReader<'a> {
    type Item = Part<'a>;

    ghost next_gives = { GivesFirst };

    ghost remaining = { item_count lines_left };

    // The next line, without its line feed; none where no bytes are left.
    fn next(&mut self) -> Option<Part<'a>>
        ensures line { MatchOption result (rest_of self.old ≡ []) (λ line. (line.digits.now ≡ first_line (rest_of self.old)) × (line.place ≡ self.old.at)) }
        ensures lines { GivesFirst self.old result self.new }
        ensures after { rest_of self.new ≡ after_line (rest_of self.old) }
        ensures same { self.new.text ≡ self.old.text }
        ensures goes { MakesProgress (λ _. ⊤) (item_count lines_left) self.old result self.new }
    {
        let place = self.at;
        let (digits, next) = line_from(self.text, place)?;
        self.at = next;
        Some(Part { digits, place })
    }
}
