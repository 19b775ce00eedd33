// Why a call is refused.
ghost use Rattle.std.specs.Prelude.{◌≡◌, Some};
ghost use Rattle.terms.specs.Refusals.{NamesRefusal, has_place, layer_of, meaning, refusal_number, refusal_words};

use crate::layer::Layer;
use crate::unknown::NoSuchNumber;
use std::error::Error;
use std::fmt;

/// A case for each refusal; its number is the one that faults tell.
#[derive(Clone, Copy, PartialEq, Eq, Debug)]
pub enum Refusal {
    UnknownSecurity = 1,
    QuantityOutOfRange = 2,
    NoBookingLeft = 3,
    NetOutOfRange = 4,
    TooFewBookingsBelow = 5,
    NoSuchPlace = 6,
    UnknownClass = 10,
    RepeatedClass = 11,
    UnlawfulClass = 12,
    UnknownOrRepeatedSecurity = 13,
    ClassWithoutRow = 14,
    UnlawfulSecurity = 15,
    UnlawfulPair = 16,
    CreditAboveRate = 17,
    TooManyPairs = 18,
    TooFewPlaces = 20,
    SecurityWithoutRow = 21,
    AmountTooLarge = 22,
    UnknownSurchargeClass = 25,
    AdditionOutOfRange = 26,
    NotHexadecimal = 30,
    UnknownKind = 31,
    WrongLength = 32,
    UnknownChoice = 33,
    LineMemoryTooShort = 34,
    LineOutOfOrder = 35,
    AnswerMemoryTooShort = 36,
    TextTooLong = 37,
}

impl fmt::Display for Refusal {
    ghost output = { λ refusal. Some (refusal_words refusal) };

    #[tactic(auto, unfolding(crate::specs::Refusals::refusal_words))]
    fn fmt<W: fmt::Write>(&self, f: &mut fmt::Formatter<W>) -> fmt::Result {
        f.write_str(match self {
            Refusal::UnknownSecurity => "there is no such security",
            Refusal::QuantityOutOfRange => "the quantity is zero or beyond 200,000,000",
            Refusal::NoBookingLeft => "no booking is left",
            Refusal::NetOutOfRange => "the net would pass 100,000,000",
            Refusal::TooFewBookingsBelow => "too few bookings are left below",
            Refusal::NoSuchPlace => "the list has no such place",
            Refusal::UnknownClass => "there is no such class",
            Refusal::RepeatedClass => "the class has a row already",
            Refusal::UnlawfulClass => "a figure of the class is not lawful",
            Refusal::UnknownOrRepeatedSecurity =>
                "there is no such security, or it has a row already",
            Refusal::ClassWithoutRow => "its class has no row",
            Refusal::UnlawfulSecurity => "a figure of the security is not lawful",
            Refusal::UnlawfulPair => "the two classes have no rows, are one or differ in kind",
            Refusal::CreditAboveRate => "the credit rate is above the y of a class",
            Refusal::TooManyPairs => "the sheet has all its pairs",
            Refusal::TooFewPlaces => "too few places for classes or matches",
            Refusal::SecurityWithoutRow => "a held security has no row",
            Refusal::AmountTooLarge => "the amount of a position is too large",
            Refusal::UnknownSurchargeClass => "there is no such class to surcharge",
            Refusal::AdditionOutOfRange => "an addition is above the whole",
            Refusal::NotHexadecimal => "the line is not an even number of hexadecimal digits",
            Refusal::UnknownKind => "the kind of frame is not known",
            Refusal::WrongLength => "the frame is too short or too long",
            Refusal::UnknownChoice => "the side or the kind of class is neither 01 nor 02",
            Refusal::LineMemoryTooShort => "the memory does not hold the line",
            Refusal::LineOutOfOrder => "no such line may stand here",
            Refusal::AnswerMemoryTooShort => "the memory for the answer is too short",
            Refusal::TextTooLong => "the text is longer than 65,536 bytes",
        })
    }
}

impl Error for Refusal {}

impl Refusal {
    /// The layer that refuses so, where it is always the same one.
    pub fn layer(self) -> Option<Layer>
        ensures { result ≡ layer_of self }
    {
        Some(match u8::from(self) {
            1..=4 => return None,
            5 => Layer::Trial,
            6 => Layer::List,
            7..=19 => Layer::Sheet,
            20..=24 => Layer::Deposit,
            25..=29 => Layer::Surcharge,
            30..=34 => Layer::Frame,
            _ => Layer::WholeText,
        })
    }

    /// Whether its fault tells the place of a call.
    pub fn has_place(self) -> bool
        ensures { result ≡ has_place (meaning self).place }
    {
        match u8::from(self) {
            5 | 6 | 20 => false,
            number => number < 30,
        }
    }
}

impl From<Refusal> for u8 {
    ghost from_gives = { λ refusal n. n ≡ refusal_number refusal };

    fn from(refusal: Refusal) -> u8 {
        refusal as u8
    }
}

// Kept: no derive makes an enum of a number, so that its cases are named in a match.
impl TryFrom<u8> for Refusal {
    type Error = NoSuchNumber;

    ghost try_from_gives = { NamesRefusal };

    fn try_from(number: u8) -> Result<Refusal, NoSuchNumber> {
        Ok(match number {
            1 => Refusal::UnknownSecurity,
            2 => Refusal::QuantityOutOfRange,
            3 => Refusal::NoBookingLeft,
            4 => Refusal::NetOutOfRange,
            5 => Refusal::TooFewBookingsBelow,
            6 => Refusal::NoSuchPlace,
            10 => Refusal::UnknownClass,
            11 => Refusal::RepeatedClass,
            12 => Refusal::UnlawfulClass,
            13 => Refusal::UnknownOrRepeatedSecurity,
            14 => Refusal::ClassWithoutRow,
            15 => Refusal::UnlawfulSecurity,
            16 => Refusal::UnlawfulPair,
            17 => Refusal::CreditAboveRate,
            18 => Refusal::TooManyPairs,
            20 => Refusal::TooFewPlaces,
            21 => Refusal::SecurityWithoutRow,
            22 => Refusal::AmountTooLarge,
            25 => Refusal::UnknownSurchargeClass,
            26 => Refusal::AdditionOutOfRange,
            30 => Refusal::NotHexadecimal,
            31 => Refusal::UnknownKind,
            32 => Refusal::WrongLength,
            33 => Refusal::UnknownChoice,
            34 => Refusal::LineMemoryTooShort,
            35 => Refusal::LineOutOfOrder,
            36 => Refusal::AnswerMemoryTooShort,
            37 => Refusal::TextTooLong,
            _ => return Err(NoSuchNumber(number)),
        })
    }
}
