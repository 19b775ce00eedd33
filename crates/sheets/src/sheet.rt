// What every rate sheet shows of itself.
ghost use Rattle.rules.specs.Rows.{Lawful, Rows};
ghost use Rattle.std.specs.List.{slice_get};
ghost use Rattle.std.specs.Prelude.{◌≡◌};

use rules::rows::{ClassRow, PairRow, SecurityRow};

/// A sheet is only read, and reading is never refused: a missing row reads as absent.
pub trait Sheet {
    // The rows of the sheet.
    ghost rows: { Self → Rows };

    // They obey the laws of a sheet.
    ghost lawful: { (s : Self) → Lawful (rows s) };

    /// The row of a class.
    fn class(&self, class: u16) -> Option<ClassRow>
        ensures { result ≡ (rows self.now).classes class };

    /// The row of a security.
    fn security(&self, security: u16) -> Option<SecurityRow>
        ensures { result ≡ (rows self.now).securities security };

    /// The pair at a place, counted from 0 in the order of priority.
    fn pair(&self, place: usize) -> Option<PairRow>
        ensures { result ≡ slice_get (rows self.now).pairs place };
}
