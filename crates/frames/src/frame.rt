// A kind of frame: its record, its length, and how the record stands in its fields.
ghost use Rattle.std.specs.Prelude.{◌≡◌, ℕ, Bool, true, List, MatchOption, ◌≢◌};
ghost use Rattle.frames.specs.Fields.{carries};
ghost use Rattle.frames.specs.Frames.{choice_lawful};
ghost use Rattle.frames.specs.Kinds.{Kind, Listed};
ghost use Rattle.frames.specs.Shapes.{Shaped};

use std::convert::AsSlice;

/// The most fields of a frame.
pub const MOST_FIELDS: usize = 8;

pub trait Frame {
    type Record;

    /// What the fields hold, from the first place on: as many figures as the kind has fields.
    type Figures: AsSlice<u64> + Drop;

    /// The byte that tells the kind.
    const KIND: u8;

    /// The bytes of the frame, the kind byte among them.
    const LENGTH: usize;

    /// Whether the second field is a choice between 01 and 02.
    // Kept: both kinds of choice have these two bytes, so that one Bool is plainer than a type of choice for each kind of frame.
    const CHOICE: bool;

    ghost KIND: { ℕ };

    ghost LENGTH: { ℕ };

    ghost CHOICE: { Bool };

    ghost kind: { Kind };

    // What the fields hold for a record.
    ghost figures: { Self.Record → List ℕ };

    /// The widths of the fields in bytes. A function, since a clause cannot say what a constant refers to.
    fn widths() -> &'static [usize]
        ensures { result.now ≡ kind.widths };

    /// What the fields hold for a record.
    // Kept: a From and a TryFrom are no plainer: a law would have to tie each to `figures`, which these two state at once.
    fn figures_of(item: &Self::Record) -> Self::Figures
        ensures { Self.Figures.items result ≡ figures item.now };

    /// The record with these figures, if there is one.
    fn record_of(numbers: &[u64]) -> Option<Self::Record>
        ensures { MatchOption result ((x : Self.Record) → figures x ≢ numbers.now) (λ x. figures x ≡ numbers.now) };

    // The constants are those of the kind.
    ghost shaped: { Shaped kind KIND LENGTH CHOICE };

    // It is one of the kinds.
    ghost listed: { Listed kind };

    // The fields carry every record.
    ghost carried: { (x : Self.Record) → carries kind.widths (figures x) ≡ true };

    ghost chosen: { (x : Self.Record) → choice_lawful kind (figures x) ≡ true };

    // The figures tell the record.
    ghost told: { (x y : Self.Record) → figures x ≡ figures y → x ≡ y };

    // Whatever the fields carry is a record, if its choice is known.
    ghost made: { (numbers : List ℕ) → carries kind.widths numbers ≡ true → choice_lawful kind numbers ≡ true → (x : Self.Record) × (figures x ≡ numbers) };
}
