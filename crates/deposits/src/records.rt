// What a deposit tells.
use terms::money::{Grosz, SignedZloty, Zloty};

/// Of one class: its sums PK and PS and its leftover in zloty units, whether it is held, and its parts.
// Kept: a rule of the project: a class's figures are PK, PS, leftover, held, DRR, DRS, DSWK, KSPK and DOLR, and all of them are
// defined where it is not held.
#[derive(Clone, Copy)]
pub struct ClassMargin {
    pub bought: Zloty,
    pub sold: Zloty,
    /// what no pair has matched: bought positive, sold negative
    pub leftover: SignedZloty,
    pub held: bool,
    pub drr: Grosz,
    pub drs: Grosz,
    pub dswk: Grosz,
    pub kspk: Grosz,
    pub dolr: Grosz,
}

impl ClassMargin {
    /// Of a class that is not held.
    // Kept: no plainer: it is a constant, of which arrays and other constants are made; a Default would stand beside it.
    pub const NONE: ClassMargin = ClassMargin {
        bought: Zloty::ZERO,
        sold: Zloty::ZERO,
        leftover: SignedZloty::ZERO,
        held: false,
        drr: Grosz::ZERO,
        drs: Grosz::ZERO,
        dswk: Grosz::ZERO,
        kspk: Grosz::ZERO,
        dolr: Grosz::ZERO,
    };
}

/// Of a pair: its classes, and how much of their net values is matched.
#[derive(Clone, Copy)]
pub struct Match {
    pub first: u16,
    pub second: u16,
    pub matched: Zloty,
}

impl Match {
    /// Nothing is matched.
    // Kept: no plainer: it is a constant, of which arrays and other constants are made; a Default would stand beside it.
    pub const NONE: Match = Match {
        first: 0,
        second: 0,
        matched: Zloty::ZERO,
    };
}

/// Of a portfolio: DSPAN, and how many classes (C), securities (N) and pairs (R) are held.
// Kept: a rule of the project: the summary is DSPAN, C, N and R.
#[derive(Clone, Copy)]
pub struct Summary {
    pub dspan: Grosz,
    pub classes: u8,
    pub securities: u16,
    pub pairs: u8,
}
