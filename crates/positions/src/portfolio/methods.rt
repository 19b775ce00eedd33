// Valuing a portfolio, and summing it up.
ghost use Rattle.positions.specs.ClassSums.{Summed};
ghost use Rattle.positions.specs.Portfolios.{Opens, valuations_of};
ghost use Rattle.positions.specs.Sums.{SumsUp};
ghost use Rattle.positions.specs.Values.{count_all_lem};
ghost use Rattle.terms.specs.Limits.{security_count};
ghost use Rattle.std.specs.Prelude.{◌≡◌};

use super::Portfolio;
use crate::class_sums::ClassSums;
use crate::table::{class_sums_of, count_of};
use crate::value::valuations;
use books::book::Positions;
use sheets::sheet::Sheet;
use terms::fault::Fault;

impl Portfolio {
    /// The portfolio in a book by the rows of a sheet, or the refusal of the first held security that has one.
    pub fn value<P: Positions, S: Sheet>(book: &P, sheet: &S) -> Result<Portfolio, Fault>
        ensures { Opens (S.Sheet.rows sheet.now) (P.Positions.nets book.now) result }
    {
        let all = valuations(book, sheet)?;
        Ok(Portfolio { all })
    }

    /// What its classes sum to, in one pass over the positions.
    #[tactic(auto, using(crate::proofs::Tables::sums_up))]
    pub fn class_sums(&self) -> ClassSums
        ensures sums_up { SumsUp self.now result }
        ensures summed { Summed (valuations_of self.now) security_count result.classes }
        ensures held { result.held ≡ count_all_lem (valuations_of self.now) security_count }
    {
        ClassSums {
            classes: class_sums_of(&self.all),
            held: count_of(&self.all),
        }
    }
}
