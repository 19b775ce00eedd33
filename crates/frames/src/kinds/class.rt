// C: a class row of a sheet.
ghost use Rattle.frames.specs.Fields.{carries};
ghost use Rattle.frames.specs.Kinds.{class_kind};
ghost use Rattle.std.specs.Prelude.{◌≡◌, true, [], ◌∷◌};
ghost use Rattle.terms.specs.Choices.{class_kind_byte};

use crate::frame::Frame;
use crate::narrow::three_bytes;
use terms::choice::ClassKind;

/// A class row of a sheet, its rates in 10^-5 of the whole.
#[derive(Clone, Copy)]
pub struct ClassRecord {
    pub class: u8,
    pub kind: ClassKind,
    pub y: u32,
    pub x: u32,
    pub dep: u32,
    ghost carried: { carries class_kind.widths (class ∷ class_kind_byte kind ∷ y ∷ x ∷ dep ∷ []) ≡ true },
}

/// The kind C.
pub struct ClassFrame;

impl Frame for ClassFrame {
    ghost use Rattle.frames.specs.Fields.{bytes};
    ghost use Rattle.frames.specs.Classes.{class_figures, class_laws};
    ghost use Rattle.frames.specs.Kinds.{is_listed};
    ghost use Rattle.std.proofs.Common.{rules};
    ghost use Rattle.std.specs.Prelude.{◌+◌, refl};

    type Record = ClassRecord;

    type Figures = [u64; 5];

    const KIND: u8 = b'C';

    const LENGTH: usize = 1 + 1 + 1 + 3 + 3 + 3;

    const CHOICE: bool = true;

    ghost KIND = { class_kind.byte };

    ghost LENGTH = { 1 + bytes class_kind.widths };

    ghost CHOICE = { class_kind.choice };

    ghost kind = { class_kind };

    ghost figures = { class_figures };

    ghost shaped = { Prim.search rules };

    ghost listed = { is_listed class_kind refl };

    ghost carried = { Prim.search rules };

    ghost chosen = { Prim.search rules };

    ghost told = { class_laws.told };

    ghost made = { class_laws.made };

    fn widths() -> &'static [usize] {
        &[1, 1, 3, 3, 3]
    }

    fn figures_of(item: &ClassRecord) -> [u64; 5] {
        [
            u64::from(item.class),
            u64::from(u8::from(item.kind)),
            u64::from(item.y),
            u64::from(item.x),
            u64::from(item.dep),
        ]
    }

    fn record_of(numbers: &[u64]) -> Option<ClassRecord> {
        let [class, kind, y, x, dep] = numbers else {
            return None;
        };
        Some(ClassRecord {
            class: u8::try_from(*class).ok()?,
            kind: ClassKind::try_from(u8::try_from(*kind).ok()?).ok()?,
            y: three_bytes(*y)?,
            x: three_bytes(*x)?,
            dep: three_bytes(*dep)?,
        })
    }
}
