// The exact sums of the classes.
ghost use Rattle.std.specs.Prelude.{◌≡◌, ◌+◌, ◌≤◌};
ghost use Rattle.exact.specs.Classes.{SumsTo, plus};
ghost use Rattle.exact.specs.Sizes.{worths_limit};
ghost use Rattle.rules.specs.Margin.{AmountsSmall};
ghost use Rattle.terms.specs.Limits.{security_count};

use crate::records::Sums;
use crate::value::worth;
use books::book::Positions;
use sheets::reading::priced_security;
use sheets::sheet::Sheet;
use terms::limits::{CLASSES, SECURITIES};

// Adds what a position is worth to the sums of its class.
fn add_worth(sums: &mut Sums, position: Sums)
    requires bought { sums.old.bought + position.bought ≤ worths_limit }
    requires sold { sums.old.sold + position.sold ≤ worths_limit }
    ensures { sums.new ≡ plus sums.old position }
{
    sums.bought += position.bought;
    sums.sold += position.sold;
}

// The sums of all classes: each security is valued once.
// Kept: a deposit keeps each position, whose sums and counts it tells, here only the sums are kept; a trait over both would need
// a law for each of value, sum and bound a type, for bodies of a few lines.
pub(crate) fn class_sums<P: Positions, S: Sheet>(book: &P, sheet: &S) -> [Sums; CLASSES]
    requires { AmountsSmall (S.Sheet.rows sheet.now) (P.Positions.nets book.now) }
    ensures { SumsTo (S.Sheet.rows sheet.now) (P.Positions.nets book.now) security_count result }
{
    let nets = book.all_nets();
    let mut sums = [Sums::default(); CLASSES];
    // Kept: an iterator chain is no plainer: the sheet is asked by the number itself.
    for security in 0..SECURITIES as u16 {
        if let Some(priced) = priced_security(sheet, security) {
            let position = worth(nets[security as usize], priced);
            add_worth(&mut sums[priced.row.class as usize], position);
        }
    }
    sums
}
