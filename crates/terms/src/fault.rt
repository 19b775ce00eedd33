// A refused call.
ghost use Rattle.std.specs.Prelude.{◌≡◌, Some};
ghost use Rattle.terms.specs.Faults.{fault_words};
ghost use Rattle.terms.specs.Questions.{fault};
ghost use Rattle.terms.specs.Refusals.{fault_at};

use crate::layer::Layer;
use crate::refusal::Refusal;
use std::error::Error;
use std::fmt;

/// Why a call was refused, by which part, and at which security or class (0 where there is none).
// Kept: a rule of the project: a fault tells place 0 where there is none, as its frame does.
#[derive(Clone, Copy, PartialEq, Eq, Debug)]
pub struct Fault {
    pub refusal: Refusal,
    pub layer: Layer,
    pub place: u16,
}

impl fmt::Display for Fault {
    ghost output = { λ fault. Some (fault_words fault) };

    fn fmt<W: fmt::Write>(&self, f: &mut fmt::Formatter<W>) -> fmt::Result {
        let refusal = self.refusal;
        let number = u8::from(refusal);
        let layer = self.layer;
        let place = self.place;
        write!(f, "{refusal} (refusal {number}, {layer}, place {place})")
    }
}

impl Error for Fault {}

impl Layer {
    /// The fault of this part: why it refused, and at which place.
    pub fn fault(self, place: u16, refusal: Refusal) -> Fault
        ensures { result ≡ fault self place refusal }
    {
        Fault {
            refusal,
            layer: self,
            place,
        }
    }
}

impl Refusal {
    /// The fault of this refusal of a call about a security or a class: told by the layer that always refuses so, by a book where a
    /// trial layer may, too; at place 0 where it tells none.
    pub fn at(self, place: u16) -> Fault
        ensures { result ≡ fault_at place self }
    {
        let place = if self.has_place() { place } else { 0 };
        self.layer().unwrap_or(Layer::Book).fault(place, self)
    }
}
