// The walk over the pairs, in place over the class records.
ghost use Rattle.std.specs.Prelude.{◌≡◌, ℕ, ◌^◌, ◌<◌, ◌≤◌, length, get_or, unsigned_abs};
ghost use Rattle.deposits.specs.Records.{left_of};
ghost use Rattle.deposits.specs.Told.{none};
ghost use Rattle.deposits.specs.Walks.{Walked};
ghost use Rattle.lists.specs.Lists.{memory};
ghost use Rattle.terms.specs.Limits.{class_count, pair_limit};

use crate::records::{ClassMargin, Match};
use crate::tell::tell;
use lists::list::List;
use sheets::sheet::Sheet;
use terms::limits::CLASSES;

// Serves the pairs of the sheet in their order, each once; the list then tells how much they match, and nothing else.
pub(crate) fn walk<S: Sheet>(
    sheet: &S,
    classes: &mut [ClassMargin; CLASSES],
    matches: &mut List<'_, Match>,
)
    requires room { pair_limit ≤ length (memory matches.old) }
    requires fresh { (c : ℕ) → c < class_count → (get_or classes.old c none).kspk.grosz ≡ 0 }
    requires small { (c : ℕ) → c < class_count → unsigned_abs (left_of classes.old c) ≤ 2 ^ 62 }
    ensures { Walked (S.Sheet.rows sheet.now).pairs classes.old matches.old classes.new matches.new }
{
    let spreads = spreads::walk::walk(sheet, classes);
    tell(spreads.as_slice(), matches);
}
