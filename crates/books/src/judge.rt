// The questions that every book puts to a booking, once its net is read.
ghost use Rattle.books.specs.Books.{account_of, booking_fault_in, bookable, reading_refusal, within, Within};
ghost use Rattle.terms.specs.Limits.{net_limit};
ghost use Rattle.terms.specs.Questions.{answer};
ghost use Rattle.std.specs.Prelude.{◌≡◌};
ghost use Rattle.std.specs.Result.{result_err};

use crate::booking::Booking;
use terms::fault::Fault;
use terms::layer::Layer;
use terms::limits::{NET_LIMIT, QUANTITY_LIMIT, SECURITIES};
use terms::refusal::Refusal;

// Whether a security may have this net.
pub(crate) fn is_within_limit(net: i64) -> bool
    ensures { result ≡ within net_limit net }
{
    (-NET_LIMIT..=NET_LIMIT).contains(&net)
}

// Whether a booking may have this quantity.
pub(crate) fn is_bookable(quantity: i64) -> bool
    ensures { result ≡ bookable quantity }
{
    quantity != 0 && (-QUANTITY_LIMIT..=QUANTITY_LIMIT).contains(&quantity)
}

// A fault where there is no such security.
pub(crate) fn known(layer: Layer, security: u16) -> Result<(), Fault>
    ensures { result ≡ answer layer security tt (reading_refusal security) }
{
    if security as usize >= SECURITIES {
        return Err(layer.fault(security, Refusal::UnknownSecurity));
    }
    Ok(())
}

// Whether a booking is refused, of a security that has this net, in a book with so many bookings left.
pub(crate) fn judge(layer: Layer, booking: Booking, left: u32, net: i64) -> Result<(), Fault>
    requires { Within net_limit net }
    ensures { result_err result ≡ booking_fault_in layer (account_of (λ _. net) left) booking }
{
    let Booking { security, quantity } = booking;
    known(layer, security)?;
    let refusal = if !is_bookable(quantity) {
        Refusal::QuantityOutOfRange
    } else if left == 0 {
        Refusal::NoBookingLeft
    } else if !is_within_limit(net + quantity) {
        Refusal::NetOutOfRange
    } else {
        return Ok(());
    };
    Err(layer.fault(security, refusal))
}
