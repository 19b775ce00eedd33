// The example of two bonds, with the rates of January 2020: what it prints, beside what is told of it.
use crate::failed::Failed;
use crate::portfolio::deposit_of;
use crate::told::say;
use books::book::{Book, Positions};
use books::booking::Booking;
use books::table::NetTable;
use rules::position::PricedSecurity;
use sheets::duration_rates::DurationRates2020;
use sheets::reading::{priced_security, rates_of};
use std::io;
use terms::limits::WHOLE;
use terms::money::Zloty;
use wording::units::{Amount, Duration, Money, Percent, Price};

// The class of both bonds.
const CLASS: u16 = 2;

// The rates of a class.
#[derive(Clone, Copy)]
struct PrintedRates {
    x: Percent,
    y: Percent,
    dep: Percent,
}

// Classes 1 to 7.
const RATES: [PrintedRates; 7] = [
    PrintedRates {
        x: Percent(150),
        y: Percent(590),
        dep: Percent(630),
    },
    CLASS_RATES,
    PrintedRates {
        x: Percent(140),
        y: Percent(560),
        dep: Percent(540),
    },
    PrintedRates {
        x: Percent(2_000),
        y: Percent(590),
        dep: Percent(630),
    },
    PrintedRates {
        x: Percent(2_000),
        y: Percent(330),
        dep: Percent(280),
    },
    PrintedRates {
        x: Percent(2_000),
        y: Percent(560),
        dep: Percent(540),
    },
    PrintedRates {
        x: Percent(15_000),
        y: Percent(590),
        dep: Percent(620),
    },
];

// Class 2, as under each portfolio.
const CLASS_RATES: PrintedRates = PrintedRates {
    x: Percent(80),
    y: Percent(330),
    dep: Percent(280),
};

// A bond's row of a portfolio; amounts are in grosz.
#[derive(Clone, Copy)]
struct PrintedBond {
    booking: Booking,
    price: Price,
    value: Money,
    duration: Duration,
    position: Money,
    // value and position as they are kept, in 10^-4 zloty, which the example does not print
    kept_value: Amount,
    kept_position: Amount,
}

const BOUGHT_POSITION: Money = Money(296_894_935);

const SOLD_POSITION: Money = Money(313_189_818);

const BOUGHT: PrintedBond = PrintedBond {
    booking: Booking {
        security: 0,
        quantity: 1_000,
    },
    price: Price(11_264_000),
    value: Money(112_640_000),
    duration: Duration(2_635_786),
    position: BOUGHT_POSITION,
    kept_value: Amount(11_264_000_000),
    kept_position: Amount(29_689_493_504),
};

const SOLD: PrintedBond = PrintedBond {
    booking: Booking {
        security: 1,
        quantity: -1_000,
    },
    price: Price(10_518_200),
    value: Money(105_182_000),
    duration: Duration(2_977_599),
    position: SOLD_POSITION,
    kept_value: Amount(10_518_200_000),
    kept_position: Amount(31_318_981_802),
};

// What a portfolio owes: K and S, the three risks and their sum.
#[derive(Clone, Copy)]
struct PrintedMargin {
    bought: Money,
    sold: Money,
    market: Money,
    specific: Money,
    spread: Money,
    deposit: Money,
}

const BOTH: PrintedMargin = PrintedMargin {
    bought: BOUGHT_POSITION,
    sold: SOLD_POSITION,
    market: Money(53_773),
    specific: Money(488_068),
    spread: Money(831_306),
    deposit: Money(1_373_147),
};

const BOUGHT_ALONE: PrintedMargin = PrintedMargin {
    bought: BOUGHT_POSITION,
    sold: Money(0),
    market: Money(979_753),
    specific: Money(237_516),
    spread: Money(0),
    deposit: Money(1_217_269),
};

// A bond of the fixed table.
pub(crate) fn bond(security: u16) -> Result<PricedSecurity, Failed> {
    priced_security(&DurationRates2020, security).ok_or(Failed::NoBond)
}

// An amount to the nearest grosz, as the whole of it.
fn in_grosz(amount: Zloty) -> Money {
    Money(amount.percentage(WHOLE).grosz())
}

fn say_rates(rt: &HostRuntime, class: u16, printed: PrintedRates) -> io::Result<()> {
    let told = rates_of(&DurationRates2020, class);
    println!(rt; " class {class}")?;
    say(rt, "  x, specific risk", Percent(told.x), printed.x)?;
    say(rt, "  y, market risk", Percent(told.y), printed.y)?;
    say(rt, "  dep, spread", Percent(told.dep), printed.dep)
}

fn say_bond(rt: &HostRuntime, book: &NetTable, printed: PrintedBond) -> Result<(), Failed> {
    let security = printed.booking.security;
    let told = bond(security)?;
    let net = book.net(security)?;
    let (value, position) = told.valuation(net).ok_or(Failed::NoValue)?;
    println!(rt; " bond {security}")?;
    say(rt, "  quantity", net, printed.booking.quantity)?;
    say(rt, "  price", Price(told.row.price), printed.price)?;
    say(rt, "  value", in_grosz(value), printed.value)?;
    say(
        rt,
        "  value, as kept",
        Amount(value.units()),
        printed.kept_value,
    )?;
    say(rt, "  md", Duration(told.row.duration), printed.duration)?;
    say(rt, "  position", in_grosz(position), printed.position)?;
    say(
        rt,
        "  position, as kept",
        Amount(position.units()),
        printed.kept_position,
    )?;
    say(rt, "  class", told.row.class, CLASS)?;
    Ok(())
}

fn say_margin(rt: &HostRuntime, book: &NetTable, printed: PrintedMargin) -> Result<(), Failed> {
    let told = deposit_of(book, &DurationRates2020)?;
    let class = told.classes[CLASS as usize];
    let deposit = Money(told.summary.dspan.grosz());
    println!(rt; " deposit")?;
    say(rt, "  K, bought", in_grosz(class.bought), printed.bought)?;
    say(rt, "  S, sold", in_grosz(class.sold), printed.sold)?;
    say(
        rt,
        "  y of |K - S|",
        Money(class.drr.grosz()),
        printed.market,
    )?;
    say(
        rt,
        "  x of K + S",
        Money(class.drs.grosz()),
        printed.specific,
    )?;
    say(
        rt,
        "  dep of the smaller",
        Money(class.dswk.grosz()),
        printed.spread,
    )?;
    say(rt, "  sum", deposit, printed.deposit)?;
    Ok(())
}

// A portfolio booked and run through the sheet, the valuation and the deposit.
fn run(rt: &HostRuntime, bonds: &[PrintedBond], printed: PrintedMargin) -> Result<(), Failed> {
    let mut book = NetTable::open();
    for bond in bonds {
        book.book(bond.booking)?;
    }
    for bond in bonds {
        say_bond(rt, &book, *bond)?;
    }
    say_rates(rt, CLASS, CLASS_RATES)?;
    say_margin(rt, &book, printed)
}

// Every figure that the example prints, with the rates before it.
pub(crate) fn whole_example(rt: &HostRuntime) -> Result<(), Failed> {
    println!(rt; "rates of January 2020")?;
    for (class, printed) in (1..).zip(RATES) {
        say_rates(rt, class, printed)?;
    }
    println!(rt; "portfolio 1")?;
    run(rt, &[BOUGHT, SOLD], BOTH)?;
    println!(rt; "portfolio 2")?;
    run(rt, &[BOUGHT], BOUGHT_ALONE)
}
