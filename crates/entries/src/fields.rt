// What the fields of a frame bring, taken by a draft or a book.
ghost use Rattle.entries.specs.Entries.{listed_class, listed_pair, listed_security, quantity_of};
ghost use Rattle.entries.specs.Intakes.{Adds, Posts};
ghost use Rattle.frames.specs.Fields.{numbers_of};
ghost use Rattle.frames.specs.Frames.{digits_refusal};
ghost use Rattle.frames.specs.Kinds.{booking_kind, class_kind, pair_kind, security_kind};
ghost use Rattle.std.specs.Prelude.{◌≡◌, None as Nothing, slice_index};

use books::book::Book;
use books::booking::Booking;
use books::table::NetTable;
use frames::codec::read_digits;
use frames::digits::Digits;
use frames::kinds::{BookingFrame, ClassFrame, PairFrame, SecurityFrame};
use rules::rows::{ClassRow, PairRow, SecurityRow};
use sheets::draft::Draft;
use terms::fault::Fault;

// Adds the class row with these fields.
// Kept: record and row are of other crates, so a From would need a type around one; a trait over add_class, add_security and
// add_pair is no plainer: three impls with a definition each, for three bodies of a literal and a call.
pub(crate) fn add_class(draft: &mut Draft, fields: Digits<'_>) -> Result<(), Fault>
    requires { digits_refusal class_kind fields.text.now ≡ Nothing }
    ensures { Adds (listed_class (numbers_of class_kind.widths fields.entry.text.now)) draft.old result draft.new }
{
    let item = read_digits::<ClassFrame>(fields)?;
    let row = ClassRow {
        kind: item.kind,
        y: item.y,
        x: item.x,
        dep: item.dep,
    };
    draft.add_class(u16::from(item.class), row)
}

// Adds the security row with these fields.
pub(crate) fn add_security(draft: &mut Draft, fields: Digits<'_>) -> Result<(), Fault>
    requires { digits_refusal security_kind fields.text.now ≡ Nothing }
    ensures { Adds (listed_security (numbers_of security_kind.widths fields.entry.text.now)) draft.old result draft.new }
{
    let item = read_digits::<SecurityFrame>(fields)?;
    let row = SecurityRow {
        class: u16::from(item.class),
        price: item.price,
        rate: item.rate,
        duration: item.duration,
    };
    draft.add_security(u16::from(item.security), row)
}

// Adds the pair with these fields.
pub(crate) fn add_pair(draft: &mut Draft, fields: Digits<'_>) -> Result<(), Fault>
    requires { digits_refusal pair_kind fields.text.now ≡ Nothing }
    ensures { Adds (listed_pair (numbers_of pair_kind.widths fields.entry.text.now)) draft.old result draft.new }
{
    let item = read_digits::<PairFrame>(fields)?;
    let row = PairRow {
        first: u16::from(item.first),
        second: u16::from(item.second),
        crt: item.crt,
    };
    draft.add_pair(row)
}

// Books the quantity of these fields, signed by their side.
// Kept: record and booking are of other crates, so a From would need a type around one.
pub(crate) fn book(table: &mut NetTable, fields: Digits<'_>) -> Result<(), Fault>
    requires { digits_refusal booking_kind fields.text.now ≡ Nothing }
    ensures { Posts (slice_index (numbers_of booking_kind.widths fields.entry.text.now) 0) (quantity_of (numbers_of booking_kind.widths fields.entry.text.now)) table.old result table.new }
{
    let item = read_digits::<BookingFrame>(fields)?;
    table.book(Booking {
        security: u16::from(item.security),
        quantity: item.side.signed(item.quantity),
    })
}
