// D: the deposit of a class.
ghost use Rattle.frames.specs.Fields.{carries};
ghost use Rattle.frames.specs.Kinds.{deposit_kind};
ghost use Rattle.std.specs.Prelude.{◌≡◌, true, [], ◌∷◌};

use crate::frame::Frame;

/// The deposit of one class, in grosz.
// Kept: a rule of the project: a D frame has these five figures one by one, as a class does.
#[derive(Clone, Copy)]
pub struct DepositRecord {
    pub class: u8,
    pub drr: u64,
    pub drs: u64,
    pub dswk: u64,
    pub kspk: u64,
    pub dolr: u64,
    ghost carried: { carries deposit_kind.widths (class ∷ drr ∷ drs ∷ dswk ∷ kspk ∷ dolr ∷ []) ≡ true },
}

/// The kind D.
pub struct DepositFrame;

impl Frame for DepositFrame {
    ghost use Rattle.frames.specs.Fields.{bytes};
    ghost use Rattle.frames.specs.Deposits.{deposit_figures, deposit_laws};
    ghost use Rattle.frames.specs.Kinds.{is_listed};
    ghost use Rattle.std.proofs.Common.{rules};
    ghost use Rattle.std.specs.Prelude.{◌+◌, refl};

    type Record = DepositRecord;

    type Figures = [u64; 6];

    const KIND: u8 = b'D';

    const LENGTH: usize = 1 + 1 + 8 + 8 + 8 + 8 + 8;

    const CHOICE: bool = false;

    ghost KIND = { deposit_kind.byte };

    ghost LENGTH = { 1 + bytes deposit_kind.widths };

    ghost CHOICE = { deposit_kind.choice };

    ghost kind = { deposit_kind };

    ghost figures = { deposit_figures };

    ghost shaped = { Prim.search rules };

    ghost listed = { is_listed deposit_kind refl };

    ghost carried = { Prim.search rules };

    ghost chosen = { Prim.search rules };

    ghost told = { deposit_laws.told };

    ghost made = { deposit_laws.made };

    fn widths() -> &'static [usize] {
        &[1, 8, 8, 8, 8, 8]
    }

    fn figures_of(item: &DepositRecord) -> [u64; 6] {
        [
            u64::from(item.class),
            item.drr,
            item.drs,
            item.dswk,
            item.kspk,
            item.dolr,
        ]
    }

    fn record_of(numbers: &[u64]) -> Option<DepositRecord> {
        let [class, drr, drs, dswk, kspk, dolr] = numbers else {
            return None;
        };
        Some(DepositRecord {
            class: u8::try_from(*class).ok()?,
            drr: *drr,
            drs: *drs,
            dswk: *dswk,
            kspk: *kspk,
            dolr: *dolr,
        })
    }
}
