// The rows of a draft and of the sheet in force that it becomes.
ghost use Rattle.std.specs.Prelude.{◌≡◌, true};
ghost use Rattle.rules.specs.Tables.{table_test};

use arrayvec::ArrayVec;
use rules::rows::{ClassRow, PairRow, SecurityRow};
use terms::limits::{CLASSES, PAIRS, SECURITIES};

mod asking;
mod filling;
mod reading;

// A place for each class and each security, and the pairs in their order.
// The rows are lawful at every moment.
#[derive(Drop)]
pub(crate) struct RowTable {
    classes: [Option<ClassRow>; CLASSES],
    securities: [Option<SecurityRow>; SECURITIES],
    pairs: ArrayVec<PairRow, PAIRS>,
    ghost lawful: { table_test (record { class_rows = classes; security_rows = securities; pair_rows = pairs.items }) ≡ true },
}
