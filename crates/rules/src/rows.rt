// The rows of a rate sheet.
ghost use Rattle.rules.specs.Laws.{TestDecides};
ghost use Rattle.rules.specs.Tables.{class_figures, security_figures};
ghost use Rattle.std.specs.Prelude.{◌≡◌};

use terms::choice::ClassKind;
use terms::limits::{DURATION_LIMIT, DURATION_ONE, PRICE_LIMIT, RATE_LIMIT, WHOLE};

/// The rates of a class, each in 10^-5 of the whole.
// Kept: no plainer: a row may be unlawful before it is judged, and the Rates of a sheet never are; a third type for y, x and dep,
// which both would hold, would be named at each use.
#[derive(Clone, Copy, PartialEq, Eq, Debug)]
pub struct ClassRow {
    pub kind: ClassKind,
    pub y: u32,
    pub x: u32,
    pub dep: u32,
}

/// A security: its class, price in 10^-4 of the quotation currency, currency rate in 10^-4 zloty, and duration in 10^-6.
#[derive(Clone, Copy, PartialEq, Eq, Debug)]
pub struct SecurityRow {
    pub class: u16,
    pub price: u32,
    pub rate: u32,
    pub duration: u32,
}

/// Two classes whose net values may be matched, and the credit for it in 10^-5 of the matched part.
#[derive(Clone, Copy, PartialEq, Eq, Debug, Default)]
pub struct PairRow {
    pub first: u16,
    pub second: u16,
    pub crt: u32,
}

/// What a surcharge adds to the y and the x of a class, each in 10^-5 of the whole.
#[derive(Clone, Copy, PartialEq, Eq, Debug)]
pub struct Addition {
    pub y: u32,
    pub x: u32,
}

impl ClassRow {
    /// The figures of the row obey the laws of a sheet: each is at most the whole, and a liquidity class has no dep.
    /// A table of rows does where its test passes, of which this is a part.
    #[tactic(auto, using(crate::proofs::Tables::test_decides))]
    pub fn figures_lawful(&self) -> bool
        ensures test { result ≡ class_figures self.now }
        ensures decides { TestDecides }
    {
        let dep_fits = match self.kind {
            ClassKind::Liquidity => self.dep == 0,
            ClassKind::Duration => self.dep <= WHOLE,
        };
        self.y <= WHOLE && self.x <= WHOLE && dep_fits
    }
}

impl SecurityRow {
    /// The figures of the row obey the laws of a sheet, where its class is of this kind.
    pub fn figures_lawful(&self, kind: ClassKind) -> bool
        ensures { result ≡ security_figures kind self.now }
    {
        let duration_fits = match kind {
            ClassKind::Liquidity => self.duration == DURATION_ONE,
            ClassKind::Duration => self.duration <= DURATION_LIMIT,
        };
        (1..=PRICE_LIMIT).contains(&self.price)
            && (1..=RATE_LIMIT).contains(&self.rate)
            && duration_fits
    }
}
