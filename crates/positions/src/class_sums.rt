// What all classes sum to.
ghost use Rattle.positions.specs.ClassSums.{IdleSums, SmallSums};
ghost use Rattle.std.specs.Prelude.{◌≡◌, length};
ghost use Rattle.terms.specs.Limits.{class_count};

use crate::class_sum::ClassSum;
use terms::limits::CLASSES;

/// Of each class what it sums to, and how many securities are held in all. A class of which nothing is held sums to nothing.
#[derive(Clone, Copy)]
pub struct ClassSums {
    pub classes: [ClassSum; CLASSES],
    pub held: u16,
    pub ghost wide: { length classes ≡ class_count },
    pub ghost small: { SmallSums classes },
    pub ghost idle: { IdleSums classes },
}
