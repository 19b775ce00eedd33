// S: a security row of a sheet.
ghost use Rattle.frames.specs.Fields.{carries};
ghost use Rattle.frames.specs.Kinds.{security_kind};
ghost use Rattle.std.specs.Prelude.{◌≡◌, true, [], ◌∷◌};

use crate::frame::Frame;
use crate::narrow::three_bytes;

/// A security row of a sheet. Price and currency rate count 10^-4, the duration 10^-6.
#[derive(Clone, Copy)]
pub struct SecurityRecord {
    pub security: u8,
    pub class: u8,
    pub price: u32,
    pub rate: u32,
    pub duration: u32,
    ghost carried: { carries security_kind.widths (security ∷ class ∷ price ∷ rate ∷ duration ∷ []) ≡ true },
}

/// The kind S.
pub struct SecurityFrame;

impl Frame for SecurityFrame {
    ghost use Rattle.frames.specs.Fields.{bytes};
    ghost use Rattle.frames.specs.Securities.{security_figures, security_laws};
    ghost use Rattle.frames.specs.Kinds.{is_listed};
    ghost use Rattle.std.proofs.Common.{rules};
    ghost use Rattle.std.specs.Prelude.{◌+◌, refl};

    type Record = SecurityRecord;

    type Figures = [u64; 5];

    const KIND: u8 = b'S';

    const LENGTH: usize = 1 + 1 + 1 + 4 + 3 + 4;

    const CHOICE: bool = false;

    ghost KIND = { security_kind.byte };

    ghost LENGTH = { 1 + bytes security_kind.widths };

    ghost CHOICE = { security_kind.choice };

    ghost kind = { security_kind };

    ghost figures = { security_figures };

    ghost shaped = { Prim.search rules };

    ghost listed = { is_listed security_kind refl };

    ghost carried = { Prim.search rules };

    ghost chosen = { Prim.search rules };

    ghost told = { security_laws.told };

    ghost made = { security_laws.made };

    fn widths() -> &'static [usize] {
        &[1, 1, 4, 3, 4]
    }

    fn figures_of(item: &SecurityRecord) -> [u64; 5] {
        [
            u64::from(item.security),
            u64::from(item.class),
            u64::from(item.price),
            u64::from(item.rate),
            u64::from(item.duration),
        ]
    }

    fn record_of(numbers: &[u64]) -> Option<SecurityRecord> {
        let [security, class, price, rate, duration] = numbers else {
            return None;
        };
        Some(SecurityRecord {
            security: u8::try_from(*security).ok()?,
            class: u8::try_from(*class).ok()?,
            price: u32::try_from(*price).ok()?,
            rate: three_bytes(*rate)?,
            duration: u32::try_from(*duration).ok()?,
        })
    }
}
