// From what a dealer orders to the steps of a script.
ghost use Rattle.replay.specs.Scripts.{Beside, NoCall, has_call, no_call, own_step, setting, step_of, trial_call};
ghost use Rattle.replay.specs.declared.order.Order.{Order as Asked};
ghost use Rattle.std.specs.Prelude.{◌≡◌, IfOk, MatchResult, Option};

use crate::order::{Desk, Order};
use histories::step::Step;
use std::alloc::{AllocError, Global};
use std::convert::Infallible;
use surcharges::setting::Setting;
use tops::call::{Call, TrialCall};

// The calls that only one kind of top has.
pub(crate) trait OwnCall: Copy {
    // The call that an order asks for, if the top has it.
    ghost asked: { Asked → Option Self };

    // Kept: an order that a top does not have is no error, so that `TryFrom` would need an error type that says nothing.
    fn of_order(order: Order) -> Option<Self>
        ensures { result ≡ asked order };
}

impl OwnCall for Infallible {
    ghost asked = { no_call };

    fn of_order(_order: Order) -> Option<Infallible> {
        None
    }
}

impl OwnCall for TrialCall {
    ghost asked = { trial_call };

    fn of_order(order: Order) -> Option<TrialCall> {
        match order {
            Order::Commit => Some(TrialCall::Commit),
            Order::Drop => Some(TrialCall::Drop),
            _ => None,
        }
    }
}

impl OwnCall for Setting {
    ghost asked = { setting };

    fn of_order(order: Order) -> Option<Setting> {
        match order {
            Order::Surcharge(setting) => Some(setting),
            _ => None,
        }
    }
}

// A call of the top of the book, or else one of the top of the sheet.
fn own<O: OwnCall, P: OwnCall>(order: Order) -> Option<Step<O, P>>
    ensures { result ≡ own_step (O.OwnCall.asked order) (P.OwnCall.asked order) }
{
    O::of_order(order)
        .map(|call| Step::Book(Call::Own(call)))
        .or_else(|| P::of_order(order).map(|call| Step::Sheet(call)))
}

// What an order asks for.
fn step<O: OwnCall, P: OwnCall>(order: Order) -> Option<Step<O, P>>
    ensures { result ≡ step_of O.OwnCall.asked P.OwnCall.asked order }
{
    match order {
        Order::Book(booking) => Some(Step::Book(Call::Book(booking))),
        Order::Deposit { classes, matches } => Some(Step::Deposit { classes, matches }),
        _ => own(order),
    }
}

// The steps of all orders, each at the place of its order; or the first order that asks for none.
pub(crate) fn script_of<O: OwnCall, P: OwnCall>(
    heap: Global,
    orders: &[Order],
) -> Result<Result<Vec<Step<O, P>>, Order>, AllocError>
    ensures { IfOk result (λ made. MatchResult made
        (λ script. Beside O.OwnCall.asked P.OwnCall.asked orders.now script.items)
        (λ order. NoCall O.OwnCall.asked P.OwnCall.asked orders.now order)) }
{
    let mut script = Vec::new(heap);
    for order in orders {
        match step(*order) {
            Some(step) => script.push(step)?,
            None => return Ok(Err(*order)),
        }
    }
    Ok(Ok(script))
}

impl Desk {
    // Whether the desk has a call for such an order.
    pub(crate) fn has(self, order: Order) -> bool
        ensures { result ≡ has_call self order }
    {
        match self {
            Desk::Rates | Desk::Layered => step::<TrialCall, Infallible>(order).is_some(),
            Desk::Pairs | Desk::Stacked => step::<TrialCall, Setting>(order).is_some(),
            Desk::Journal => step::<Infallible, Infallible>(order).is_some(),
        }
    }
}
