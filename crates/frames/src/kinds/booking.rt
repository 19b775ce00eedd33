// B: a booking.
ghost use Rattle.frames.specs.Fields.{carries};
ghost use Rattle.frames.specs.Kinds.{booking_kind};
ghost use Rattle.std.specs.Prelude.{◌≡◌, true, [], ◌∷◌};
ghost use Rattle.terms.specs.Choices.{side_byte};

use crate::frame::Frame;
use terms::choice::Side;

/// A booking of one security.
#[derive(Clone, Copy)]
pub struct BookingRecord {
    pub security: u8,
    pub side: Side,
    pub quantity: u32,
    ghost carried: { carries booking_kind.widths (security ∷ side_byte side ∷ quantity ∷ []) ≡ true },
}

/// The kind B.
pub struct BookingFrame;

impl Frame for BookingFrame {
    ghost use Rattle.frames.specs.Fields.{bytes};
    ghost use Rattle.frames.specs.Bookings.{booking_figures, booking_laws};
    ghost use Rattle.frames.specs.Kinds.{is_listed};
    ghost use Rattle.std.proofs.Common.{rules};
    ghost use Rattle.std.specs.Prelude.{◌+◌, refl};

    type Record = BookingRecord;

    type Figures = [u64; 3];

    const KIND: u8 = b'B';

    const LENGTH: usize = 1 + 1 + 1 + 4;

    const CHOICE: bool = true;

    ghost KIND = { booking_kind.byte };

    ghost LENGTH = { 1 + bytes booking_kind.widths };

    ghost CHOICE = { booking_kind.choice };

    ghost kind = { booking_kind };

    ghost figures = { booking_figures };

    ghost shaped = { Prim.search rules };

    ghost listed = { is_listed booking_kind refl };

    ghost carried = { Prim.search rules };

    ghost chosen = { Prim.search rules };

    ghost told = { booking_laws.told };

    ghost made = { booking_laws.made };

    fn widths() -> &'static [usize] {
        &[1, 1, 4]
    }

    fn figures_of(item: &BookingRecord) -> [u64; 3] {
        [
            u64::from(item.security),
            u64::from(u8::from(item.side)),
            u64::from(item.quantity),
        ]
    }

    fn record_of(numbers: &[u64]) -> Option<BookingRecord> {
        let [security, side, quantity] = numbers else {
            return None;
        };
        Some(BookingRecord {
            security: u8::try_from(*security).ok()?,
            side: Side::try_from(u8::try_from(*side).ok()?).ok()?,
            quantity: u32::try_from(*quantity).ok()?,
        })
    }
}
