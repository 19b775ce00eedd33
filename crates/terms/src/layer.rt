// The part of the module that refuses a call.
ghost use Rattle.std.specs.Prelude.{◌≡◌, Some};
ghost use Rattle.terms.specs.Numbers.{NamesLayer, layer_number, layer_words};

use crate::unknown::NoSuchNumber;
use std::fmt;

/// A case for each part that puts questions to a call.
#[derive(Clone, Copy, PartialEq, Eq, Debug)]
pub enum Layer {
    Frame = 1,
    Sheet = 2,
    Book = 3,
    Trial = 4,
    Deposit = 5,
    Surcharge = 6,
    List = 7,
    WholeText = 8,
}

impl fmt::Display for Layer {
    ghost output = { λ layer. Some (layer_words layer) };

    fn fmt<W: fmt::Write>(&self, f: &mut fmt::Formatter<W>) -> fmt::Result {
        f.write_str(match self {
            Layer::Frame => "frame",
            Layer::Sheet => "sheet",
            Layer::Book => "book",
            Layer::Trial => "trial",
            Layer::Deposit => "deposit",
            Layer::Surcharge => "surcharge",
            Layer::List => "list",
            Layer::WholeText => "whole text",
        })
    }
}

impl From<Layer> for u8 {
    ghost from_gives = { λ layer n. n ≡ layer_number layer };

    fn from(layer: Layer) -> u8 {
        layer as u8
    }
}

// Kept: no derive makes an enum of a number, so that its cases are named in a match.
impl TryFrom<u8> for Layer {
    type Error = NoSuchNumber;

    ghost try_from_gives = { NamesLayer };

    fn try_from(number: u8) -> Result<Layer, NoSuchNumber> {
        Ok(match number {
            1 => Layer::Frame,
            2 => Layer::Sheet,
            3 => Layer::Book,
            4 => Layer::Trial,
            5 => Layer::Deposit,
            6 => Layer::Surcharge,
            7 => Layer::List,
            8 => Layer::WholeText,
            _ => return Err(NoSuchNumber(number)),
        })
    }
}
