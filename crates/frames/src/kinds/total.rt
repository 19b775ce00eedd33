// T: the deposit of a portfolio.
ghost use Rattle.frames.specs.Fields.{carries};
ghost use Rattle.frames.specs.Kinds.{total_kind};
ghost use Rattle.std.specs.Prelude.{◌≡◌, true, [], ◌∷◌};

use crate::frame::Frame;

/// How many classes, securities and pairs are held, and the deposit of the portfolio, in grosz.
#[derive(Clone, Copy)]
pub struct TotalRecord {
    pub classes: u8,
    pub securities: u16,
    pub pairs: u8,
    pub dspan: u64,
    ghost carried: { carries total_kind.widths (classes ∷ securities ∷ pairs ∷ dspan ∷ []) ≡ true },
}

/// The kind T.
pub struct TotalFrame;

impl Frame for TotalFrame {
    ghost use Rattle.frames.specs.Fields.{bytes};
    ghost use Rattle.frames.specs.Totals.{total_figures, total_laws};
    ghost use Rattle.frames.specs.Kinds.{is_listed};
    ghost use Rattle.std.proofs.Common.{rules};
    ghost use Rattle.std.specs.Prelude.{◌+◌, refl};

    type Record = TotalRecord;

    type Figures = [u64; 4];

    const KIND: u8 = b'T';

    const LENGTH: usize = 1 + 1 + 2 + 1 + 8;

    const CHOICE: bool = false;

    ghost KIND = { total_kind.byte };

    ghost LENGTH = { 1 + bytes total_kind.widths };

    ghost CHOICE = { total_kind.choice };

    ghost kind = { total_kind };

    ghost figures = { total_figures };

    ghost shaped = { Prim.search rules };

    ghost listed = { is_listed total_kind refl };

    ghost carried = { Prim.search rules };

    ghost chosen = { Prim.search rules };

    ghost told = { total_laws.told };

    ghost made = { total_laws.made };

    fn widths() -> &'static [usize] {
        &[1, 2, 1, 8]
    }

    fn figures_of(item: &TotalRecord) -> [u64; 4] {
        [
            u64::from(item.classes),
            u64::from(item.securities),
            u64::from(item.pairs),
            item.dspan,
        ]
    }

    fn record_of(numbers: &[u64]) -> Option<TotalRecord> {
        let [classes, securities, pairs, dspan] = numbers else {
            return None;
        };
        Some(TotalRecord {
            classes: u8::try_from(*classes).ok()?,
            securities: u16::try_from(*securities).ok()?,
            pairs: u8::try_from(*pairs).ok()?,
            dspan: *dspan,
        })
    }
}
