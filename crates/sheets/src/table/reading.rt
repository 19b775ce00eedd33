// Reading rows.
ghost use Rattle.rules.specs.Tables.{row_at};
ghost use Rattle.sheets.specs.Filled.{table_rows};
ghost use Rattle.std.specs.List.{slice_get};
ghost use Rattle.std.specs.Prelude.{◌≡◌};

use super::RowTable;
use rules::rows::{ClassRow, PairRow, SecurityRow};

// The row at a place, if there is such a place and it is filled.
#[tactic(auto, using(crate::proofs::Places::row_lent))]
fn row_of<R: Copy>(rows: &[Option<R>], place: u16) -> Option<R>
    ensures { result ≡ row_at rows.now place }
{
    rows.get(place as usize).copied().flatten()
}

impl RowTable {
    // The row of a class.
    pub(crate) fn class(&self, class: u16) -> Option<ClassRow>
        ensures { result ≡ (table_rows self.now).classes class }
    {
        row_of(&self.classes, class)
    }

    // The row of a security.
    pub(crate) fn security(&self, security: u16) -> Option<SecurityRow>
        ensures { result ≡ (table_rows self.now).securities security }
    {
        row_of(&self.securities, security)
    }

    // The pair at a place.
    pub(crate) fn pair(&self, place: usize) -> Option<PairRow>
        ensures { result ≡ slice_get (table_rows self.now).pairs place }
    {
        self.pairs.as_slice().get(place).copied()
    }
}
