// A number that nothing has.
ghost use Rattle.std.specs.Prelude.{Some};
ghost use Rattle.terms.specs.Faults.{unknown_words};

use std::error::Error;
use std::fmt;

/// No case of the enum that was asked for has this number.
#[derive(Clone, Copy, PartialEq, Eq, Debug)]
pub struct NoSuchNumber(pub u8);

impl fmt::Display for NoSuchNumber {
    ghost output = { λ unknown. Some (unknown_words unknown) };

    fn fmt<W: fmt::Write>(&self, f: &mut fmt::Formatter<W>) -> fmt::Result {
        let number = self.0;
        write!(f, "nothing has the number {number}")
    }
}

impl Error for NoSuchNumber {}
