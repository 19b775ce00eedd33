// F: a refused call.
ghost use Rattle.frames.specs.Fields.{carries};
ghost use Rattle.frames.specs.Kinds.{fault_kind};
ghost use Rattle.std.specs.Prelude.{◌≡◌, true, [], ◌∷◌};

use crate::frame::Frame;
use terms::fault::Fault;

/// A refused call: the numbers of the refusal and of the layer, the line, from 1, or 0, and the place.
// Kept: these are numbers, not a Refusal and a Layer: a frame carries any byte there, so that what it reads may name neither.
#[derive(Clone, Copy)]
pub struct FaultRecord {
    pub number: u8,
    pub layer: u8,
    pub line: u32,
    pub place: u16,
    ghost carried: { carries fault_kind.widths (number ∷ layer ∷ line ∷ place ∷ []) ≡ true },
}

/// The kind F.
pub struct FaultFrame;

impl Frame for FaultFrame {
    ghost use Rattle.frames.specs.Fields.{bytes};
    ghost use Rattle.frames.specs.Faults.{fault_figures, fault_laws};
    ghost use Rattle.frames.specs.Kinds.{is_listed};
    ghost use Rattle.std.proofs.Common.{rules};
    ghost use Rattle.std.specs.Prelude.{◌+◌, refl};

    type Record = FaultRecord;

    type Figures = [u64; 4];

    const KIND: u8 = b'F';

    const LENGTH: usize = 1 + 1 + 1 + 4 + 2;

    const CHOICE: bool = false;

    ghost KIND = { fault_kind.byte };

    ghost LENGTH = { 1 + bytes fault_kind.widths };

    ghost CHOICE = { fault_kind.choice };

    ghost kind = { fault_kind };

    ghost figures = { fault_figures };

    ghost shaped = { Prim.search rules };

    ghost listed = { is_listed fault_kind refl };

    ghost carried = { Prim.search rules };

    ghost chosen = { Prim.search rules };

    ghost told = { fault_laws.told };

    ghost made = { fault_laws.made };

    fn widths() -> &'static [usize] {
        &[1, 1, 4, 2]
    }

    fn figures_of(item: &FaultRecord) -> [u64; 4] {
        [
            u64::from(item.number),
            u64::from(item.layer),
            u64::from(item.line),
            u64::from(item.place),
        ]
    }

    fn record_of(numbers: &[u64]) -> Option<FaultRecord> {
        let [number, layer, line, place] = numbers else {
            return None;
        };
        Some(FaultRecord {
            number: u8::try_from(*number).ok()?,
            layer: u8::try_from(*layer).ok()?,
            line: u32::try_from(*line).ok()?,
            place: u16::try_from(*place).ok()?,
        })
    }
}

impl From<Fault> for FaultRecord {
    ghost use Rattle.terms.specs.Numbers.{layer_number};
    ghost use Rattle.terms.specs.Refusals.{refusal_number};

    ghost from_gives = { λ fault item. item.number ∷ item.layer ∷ item.line ∷ item.place ∷ [] ≡ refusal_number fault.refusal ∷ layer_number fault.layer ∷ 0 ∷ fault.place ∷ [] };

    // The record of a fault with no line.
    fn from(fault: Fault) -> FaultRecord {
        FaultRecord {
            number: u8::from(fault.refusal),
            layer: u8::from(fault.layer),
            line: 0,
            place: fault.place,
        }
    }
}
