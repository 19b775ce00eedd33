// What the classes owe, exactly.
ghost use Rattle.std.specs.Prelude.{◌≡◌, ℕ, ◌<◌, ◌≤◌, slice_index_or, unsigned_abs};
ghost use Rattle.exact.specs.Classes.{none};
ghost use Rattle.exact.specs.Owed.{Small, owed_by, owed_in};
ghost use Rattle.exact.specs.Sizes.{owed_limit};
ghost use Rattle.terms.specs.Sums.{sum_belowℤ};
ghost use Rattle.terms.specs.Limits.{class_count};

use crate::records::Class;
use terms::limits::CLASSES;

// What a class owes: its parts less its credits.
fn owed(class: &Class) -> i128
    requires { Small class.now }
    ensures owed { result ≡ owed_by class.now }
    ensures small { unsigned_abs result ≤ owed_limit }
{
    class.risk as i128 - class.credits as i128
}

// What all classes owe.
// Kept: a deposit adds up records that tell what is owed in grosz, these are signed numbers of 128 bits that nothing tells; a
// trait over both would need a law for the sum and the bound of each type, for bodies of a few lines.
pub(crate) fn total(classes: &[Class; CLASSES]) -> i128
    requires { (c : ℕ) → c < class_count → Small (slice_index_or classes.now c none) }
    ensures { result ≡ sum_belowℤ class_count (owed_in classes.now) }
{
    let mut total: i128 = 0;
    for class in classes {
        total += owed(class);
    }
    total
}
