// What is measured of a deposit.
use deposits::records::Summary;

/// Its figures, the exact margin and the gap between the two in 10^-19 zloty, and in thousandths of a grosz how large the gap may be.
#[derive(Clone, Copy)]
pub struct Measure {
    pub summary: Summary,
    pub exact: i128,
    pub gap: u128,
    pub bound: u64,
}
