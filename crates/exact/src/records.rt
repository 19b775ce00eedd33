// What the exact margin is worked out by, of each class.

// What is bought and what is sold, in 10^-14 zloty.
#[derive(Clone, Copy, Default)]
pub(crate) struct Sums {
    pub(crate) bought: u128,
    pub(crate) sold: u128,
}

// Its three parts together and the credits for what is matched, in 10^-19 zloty, and between them what no pair has matched,
// in 10^-14 zloty, bought positive.
#[derive(Clone, Copy)]
pub(crate) struct Class {
    pub(crate) risk: u128,
    pub(crate) leftover: i128,
    pub(crate) credits: u128,
}
