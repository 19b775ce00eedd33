// A sheet in force is only read: it takes no row.
ghost use Rattle.sheets.specs.Filled.{table_lawful_rows};
ghost use Rattle.sheets.specs.Sheets.{sheet_rows};
ghost use Rattle.std.specs.Prelude.{◌≡◌};

use crate::sheet::Sheet;
use crate::table::RowTable;
use rules::rows::{ClassRow, PairRow, SecurityRow};

/// The rows of the draft that was put in force.
#[derive(Drop)]
pub struct RateSheet {
    table: RowTable,
}

impl RateSheet {
    // A sheet of these rows.
    pub(crate) fn of(table: RowTable) -> Self
        ensures { result.table ≡ table }
    {
        RateSheet { table }
    }
}

impl Sheet for RateSheet {
    ghost rows = { sheet_rows };

    ghost lawful = { λ s. table_lawful_rows s.table };

    fn class(&self, class: u16) -> Option<ClassRow> {
        self.table.class(class)
    }

    fn security(&self, security: u16) -> Option<SecurityRow> {
        self.table.security(security)
    }

    fn pair(&self, place: usize) -> Option<PairRow> {
        self.table.pair(place)
    }
}
