// A pair that is served.
use rules::rows::PairRow;

/// A pair, and how much its two classes match of each other.
#[derive(Clone, Copy, Default)]
pub struct Spread {
    pub pair: PairRow,
    pub matched: u128,
}
