// Where grosz go astray: figures that another order of the steps, or another rounding, would tell otherwise.
use crate::example::bond;
use crate::failed::Failed;
use crate::portfolio::deposit_of;
use crate::told::say;
use books::book::Book;
use books::booking::Booking;
use books::table::NetTable;
use rules::position::PricedSecurity;
use rules::rows::{ClassRow, PairRow, SecurityRow};
use sheets::draft::Draft;
use sheets::duration_rates::DurationRates2020;
use sheets::rate_sheet::RateSheet;
use terms::choice::ClassKind;
use terms::fault::Fault;
use terms::limits::DURATION_ONE;
use wording::units::{Amount, Money};

// A net table with so much of each of these securities.
fn booked(quantities: &[(u16, i64)]) -> Result<NetTable, Fault> {
    let mut book = NetTable::open();
    for (security, quantity) in quantities {
        book.book(Booking {
            security: *security,
            quantity: *quantity,
        })?;
    }
    Ok(book)
}

// A share of a class, at a price and a currency rate.
fn share(class: u16, price: u32, rate: u32) -> SecurityRow {
    SecurityRow {
        class,
        price,
        rate,
        duration: DURATION_ONE,
    }
}

// Three classes of shares with y at the half, one share in each; the first is paired with each of the others.
fn three_classes() -> Result<RateSheet, Fault> {
    let half = ClassRow {
        kind: ClassKind::Liquidity,
        y: 50_000,
        x: 0,
        dep: 0,
    };
    let mut draft = Draft::new();
    for (class, price) in [(0, 200), (1, 100), (2, 100)] {
        draft.add_class(class, half)?;
        draft.add_security(class, share(class, price, 10_000))?;
    }
    for second in [1, 2] {
        draft.add_pair(PairRow {
            first: 0,
            second,
            crt: 50_000,
        })?;
    }
    Ok(draft.put_in_force())
}

// What class 0 owes with one share of it bought, and one of each other sold.
fn credited() -> Result<Money, Fault> {
    let book = booked(&[(0, 1), (1, -1), (2, -1)])?;
    let told = deposit_of(&book, &three_classes()?)?;
    Ok(Money(told.classes[0].dolr.grosz()))
}

// V of 1000 of the first bond, rounded once, and as it would be if that of one bond were rounded first.
fn bond_values(rt: &HostRuntime) -> Result<(), Failed> {
    let first = bond(0)?;
    let (_, whole) = first.valuation(1_000).ok_or(Failed::NoValue)?;
    let (_, unit) = first.valuation(1).ok_or(Failed::NoValue)?;
    say(
        rt,
        "  V of 1000 of bond 0, rounded once",
        Amount(whole.units()),
        Amount(29_689_493_504),
    )?;
    say(
        rt,
        "  1000 times V of one, rounded too early",
        Amount(unit.units().saturating_mul(1_000)),
        Amount(29_689_494_000),
    )?;
    Ok(())
}

pub(crate) fn strays(rt: &HostRuntime) -> Result<(), Failed> {
    println!(rt; "where grosz go astray")?;
    bond_values(rt)?;
    let one_bond = deposit_of(&booked(&[(0, 1_000)])?, &DurationRates2020)?;
    say(
        rt,
        "  DSPAN of portfolio 2, each part to nearest",
        Money(one_bond.summary.dspan.grosz()),
        Money(1_217_269),
    )?;
    let foreign_share = PricedSecurity {
        row: share(0, 10_000, 42_500),
        kind: ClassKind::Liquidity,
    };
    let (once, _) = foreign_share.valuation(1).ok_or(Failed::NoValue)?;
    say(
        rt,
        "  A of 1 at 1.0000 and a rate of 4.2500, the rate applied once",
        Amount(once.units()),
        Amount(42_500),
    )?;
    say(
        rt,
        "  DOLR of class 0 of three, each credit rounded down",
        credited()?,
        Money(1),
    )?;
    Ok(())
}
