// The rates of January 2020 as a fixed table: duration classes 1 to 7, and two bonds of class 2.
ghost use Rattle.rules.specs.Tables.{rows_of};
ghost use Rattle.sheets.specs.Rates2020.{rates_2020, rates_2020_lawful};

use crate::sheet::Sheet;
use rules::rows::{ClassRow, PairRow, SecurityRow};
use terms::choice::ClassKind;

// The classes by number, from 1.
const CLASS_ROWS: [ClassRow; 7] = [
    ClassRow {
        kind: ClassKind::Duration,
        x: 150,
        y: 590,
        dep: 630,
    },
    ClassRow {
        kind: ClassKind::Duration,
        x: 80,
        y: 330,
        dep: 280,
    },
    ClassRow {
        kind: ClassKind::Duration,
        x: 140,
        y: 560,
        dep: 540,
    },
    ClassRow {
        kind: ClassKind::Duration,
        x: 2_000,
        y: 590,
        dep: 630,
    },
    ClassRow {
        kind: ClassKind::Duration,
        x: 2_000,
        y: 330,
        dep: 280,
    },
    ClassRow {
        kind: ClassKind::Duration,
        x: 2_000,
        y: 560,
        dep: 540,
    },
    ClassRow {
        kind: ClassKind::Duration,
        x: 15_000,
        y: 590,
        dep: 620,
    },
];

// The securities by number, from 0.
const SECURITY_ROWS: [SecurityRow; 2] = [
    SecurityRow {
        class: 2,
        price: 11_264_000,
        rate: 10_000,
        duration: 2_635_786,
    },
    SecurityRow {
        class: 2,
        price: 10_518_200,
        rate: 10_000,
        duration: 2_977_599,
    },
];

/// The fixed table.
#[derive(Clone, Copy)]
pub struct DurationRates2020;

impl Sheet for DurationRates2020 {
    ghost rows = { λ _. rows_of rates_2020 };

    ghost lawful = { λ _. rates_2020_lawful };

    fn class(&self, class: u16) -> Option<ClassRow> {
        let place = class.checked_sub(1)?;
        CLASS_ROWS.get(place as usize).copied()
    }

    fn security(&self, security: u16) -> Option<SecurityRow> {
        SECURITY_ROWS.get(security as usize).copied()
    }

    fn pair(&self, _place: usize) -> Option<PairRow> {
        None
    }
}
