// What there are two of, and the byte that stands for each.
ghost use Rattle.std.specs.Prelude.{◌≡◌, Some};
ghost use Rattle.terms.specs.Choices.{NamesClassKind, NamesSide, class_kind_byte, class_kind_words, side_byte, side_words, signed};

use crate::unknown::NoSuchNumber;
use std::fmt;

/// What the risk of a class is measured by.
#[derive(Clone, Copy, PartialEq, Eq, Debug)]
pub enum ClassKind {
    Liquidity = 1,
    Duration = 2,
}

/// The side of a trade.
#[derive(Clone, Copy, PartialEq, Eq, Debug)]
pub enum Side {
    Bought = 1,
    Sold = 2,
}

impl fmt::Display for ClassKind {
    ghost output = { λ kind. Some (class_kind_words kind) };

    fn fmt<W: fmt::Write>(&self, f: &mut fmt::Formatter<W>) -> fmt::Result {
        f.write_str(match self {
            ClassKind::Liquidity => "liquidity",
            ClassKind::Duration => "duration",
        })
    }
}

impl fmt::Display for Side {
    ghost output = { λ side. Some (side_words side) };

    fn fmt<W: fmt::Write>(&self, f: &mut fmt::Formatter<W>) -> fmt::Result {
        f.write_str(match self {
            Side::Bought => "bought",
            Side::Sold => "sold",
        })
    }
}

impl From<ClassKind> for u8 {
    ghost from_gives = { λ kind n. n ≡ class_kind_byte kind };

    fn from(kind: ClassKind) -> u8 {
        kind as u8
    }
}

// Kept: no derive makes an enum of a number, so that each enum names its cases in a match of its own.
impl TryFrom<u8> for ClassKind {
    type Error = NoSuchNumber;

    ghost try_from_gives = { NamesClassKind };

    fn try_from(number: u8) -> Result<ClassKind, NoSuchNumber> {
        match number {
            1 => Ok(ClassKind::Liquidity),
            2 => Ok(ClassKind::Duration),
            _ => Err(NoSuchNumber(number)),
        }
    }
}

impl From<Side> for u8 {
    ghost from_gives = { λ side n. n ≡ side_byte side };

    fn from(side: Side) -> u8 {
        side as u8
    }
}

impl TryFrom<u8> for Side {
    type Error = NoSuchNumber;

    ghost try_from_gives = { NamesSide };

    fn try_from(number: u8) -> Result<Side, NoSuchNumber> {
        match number {
            1 => Ok(Side::Bought),
            2 => Ok(Side::Sold),
            _ => Err(NoSuchNumber(number)),
        }
    }
}

impl Side {
    /// A quantity on this side: bought ones are positive, sold ones negative.
    pub fn signed(self, quantity: u32) -> i64
        ensures { result ≡ signed self quantity }
    {
        match self {
            Side::Bought => i64::from(quantity),
            Side::Sold => -i64::from(quantity),
        }
    }
}
