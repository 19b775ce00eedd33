// A fault of a text.
ghost use Rattle.entries.specs.LineFaults.{line_fault_words};
ghost use Rattle.std.specs.Prelude.{◌≡◌, [], ◌∷◌, Some};
ghost use Rattle.terms.specs.Numbers.{layer_number};
ghost use Rattle.terms.specs.Refusals.{refusal_number};

use frames::kinds::FaultRecord;
use std::error::Error;
use std::fmt;
use terms::fault::Fault;

/// The fault, and the number of its line, from 1; 0 where no line is at fault.
// Kept: a rule of the project: a fault tells line 0 where there is none, as its frame does; frame and programs print that 0,
// so that an Option would be put back into 0 at each use but one (gaps).
#[derive(Clone, Copy, PartialEq, Eq, Debug)]
pub struct LineFault {
    pub line: u32,
    pub fault: Fault,
}

impl fmt::Display for LineFault {
    ghost output = { λ refused. Some (line_fault_words refused) };

    fn fmt<W: fmt::Write>(&self, f: &mut fmt::Formatter<W>) -> fmt::Result {
        let line = self.line;
        let Fault {
            refusal,
            layer,
            place,
        } = self.fault;
        let number = u8::from(refusal);
        let layer_number = u8::from(layer);
        write!(
            f,
            "Refusal {number}: {refusal} (layer {layer_number}, {layer}; line {line}, place {place})"
        )
    }
}

impl Error for LineFault {}

impl From<Fault> for LineFault {
    ghost from_gives = { λ fault refused. refused ≡ record { line = 0; fault = fault } };

    // A fault that is no line's.
    fn from(fault: Fault) -> LineFault {
        LineFault { line: 0, fault }
    }
}

impl From<LineFault> for FaultRecord {
    ghost from_gives = { λ refused item. item.number ∷ item.layer ∷ item.line ∷ item.place ∷ [] ≡ refusal_number refused.fault.refusal ∷ layer_number refused.fault.layer ∷ refused.line ∷ refused.fault.place ∷ [] };

    // The record of the fault, with its line.
    fn from(refused: LineFault) -> FaultRecord {
        let mut item = FaultRecord::from(refused.fault);
        item.line = refused.line;
        item
    }
}
