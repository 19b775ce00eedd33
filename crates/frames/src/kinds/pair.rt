// P: a pair of classes of a sheet.
ghost use Rattle.frames.specs.Fields.{carries};
ghost use Rattle.frames.specs.Kinds.{pair_kind};
ghost use Rattle.std.specs.Prelude.{◌≡◌, true, [], ◌∷◌};

use crate::frame::Frame;
use crate::narrow::three_bytes;

/// A pair of classes, and the credit rate of what is matched between them, in 10^-5 of the whole.
#[derive(Clone, Copy)]
pub struct PairRecord {
    pub first: u8,
    pub second: u8,
    pub crt: u32,
    ghost carried: { carries pair_kind.widths (first ∷ second ∷ crt ∷ []) ≡ true },
}

/// The kind P.
pub struct PairFrame;

impl Frame for PairFrame {
    ghost use Rattle.frames.specs.Fields.{bytes};
    ghost use Rattle.frames.specs.Pairs.{pair_figures, pair_laws};
    ghost use Rattle.frames.specs.Kinds.{is_listed};
    ghost use Rattle.std.proofs.Common.{rules};
    ghost use Rattle.std.specs.Prelude.{◌+◌, refl};

    type Record = PairRecord;

    type Figures = [u64; 3];

    const KIND: u8 = b'P';

    const LENGTH: usize = 1 + 1 + 1 + 3;

    const CHOICE: bool = false;

    ghost KIND = { pair_kind.byte };

    ghost LENGTH = { 1 + bytes pair_kind.widths };

    ghost CHOICE = { pair_kind.choice };

    ghost kind = { pair_kind };

    ghost figures = { pair_figures };

    ghost shaped = { Prim.search rules };

    ghost listed = { is_listed pair_kind refl };

    ghost carried = { Prim.search rules };

    ghost chosen = { Prim.search rules };

    ghost told = { pair_laws.told };

    ghost made = { pair_laws.made };

    fn widths() -> &'static [usize] {
        &[1, 1, 3]
    }

    fn figures_of(item: &PairRecord) -> [u64; 3] {
        [
            u64::from(item.first),
            u64::from(item.second),
            u64::from(item.crt),
        ]
    }

    fn record_of(numbers: &[u64]) -> Option<PairRecord> {
        let [first, second, crt] = numbers else {
            return None;
        };
        Some(PairRecord {
            first: u8::try_from(*first).ok()?,
            second: u8::try_from(*second).ok()?,
            crt: three_bytes(*crt)?,
        })
    }
}
