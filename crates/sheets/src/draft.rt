// A draft takes rows one at a time. It is no sheet: it is put in force first.
ghost use Rattle.sheets.specs.Drafts.{TakesClass, TakesPair, TakesSecurity, no_rows};
ghost use Rattle.sheets.specs.Sheets.{draft_rows, sheet_rows};
ghost use Rattle.std.specs.Prelude.{◌≡◌};

use crate::rate_sheet::RateSheet;
use crate::table::RowTable;
use rules::rows::{ClassRow, PairRow, SecurityRow};
use terms::fault::Fault;

/// Its rows are lawful at every moment.
#[derive(Drop)]
pub struct Draft {
    table: RowTable,
}

impl Draft {
    /// No class, no security, no pair.
    pub fn new() -> Self
        ensures { draft_rows result ≡ no_rows }
    {
        Draft {
            table: RowTable::empty(),
        }
    }

    /// The row of a class: refusals 10, 11 and 12.
    // Kept: each kind of row has questions, a place and refusals of its own; a trait over the three would say no more.
    #[tactic(auto, using(terms::proofs::Answered::unrefused))]
    pub fn add_class(&mut self, class: u16, row: ClassRow) -> Result<(), Fault>
        ensures { TakesClass draft_rows self.old class row result self.new }
    {
        self.table.judge_class(class, row)?;
        self.table.put_class(class, row);
        Ok(())
    }

    /// The row of a security, once its class has one: refusals 13, 14 and 15.
    #[tactic(auto, using(terms::proofs::Answered::unrefused))]
    pub fn add_security(&mut self, security: u16, row: SecurityRow) -> Result<(), Fault>
        ensures { TakesSecurity draft_rows self.old security row result self.new }
    {
        self.table.judge_security(security, row)?;
        self.table.put_security(security, row);
        Ok(())
    }

    /// A pair, after those that are there: refusals 16, 17 and 18.
    #[tactic(auto, using(terms::proofs::Answered::unrefused))]
    pub fn add_pair(&mut self, pair: PairRow) -> Result<(), Fault>
        ensures { TakesPair draft_rows self.old pair result self.new }
    {
        self.table.judge_pair(pair)?;
        self.table.put_pair(pair);
        Ok(())
    }

    /// Uses the draft up. Its rows are lawful already, so that nothing is refused.
    pub fn put_in_force(self) -> RateSheet
        ensures whole { result.table ≡ self.table }
        ensures rows { sheet_rows result ≡ draft_rows self }
    {
        RateSheet::of(self.table)
    }
}
