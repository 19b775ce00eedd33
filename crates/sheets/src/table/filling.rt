// Filling places.
ghost use Rattle.sheets.specs.Drafts.{class_refusal, no_rows, pair_refusal, security_refusal, with_class, with_pair, with_security};
ghost use Rattle.sheets.specs.Filled.{table_rows};
ghost use Rattle.std.specs.Prelude.{◌≡◌, None as Nothing};

use super::RowTable;
use arrayvec::ArrayVec;
use rules::rows::{ClassRow, PairRow, SecurityRow};
use terms::limits::{CLASSES, SECURITIES};

impl RowTable {
    // No place is filled.
    pub(crate) fn empty() -> Self
        ensures { table_rows result ≡ no_rows }
    {
        RowTable {
            classes: [None; CLASSES],
            securities: [None; SECURITIES],
            pairs: ArrayVec::new(),
        }
    }

    // Fills the place of a class, once its questions are answered.
    // Kept: each kind of row fills another array and keeps other laws, so that one generic method would need both as parameters.
    #[tactic(auto, using(crate::proofs::Filling::class_filled, crate::proofs::Filling::class_kept))]
    pub(crate) fn put_class(&mut self, class: u16, row: ClassRow)
        requires { class_refusal (table_rows self.old) class row ≡ Nothing }
        ensures { table_rows self.new ≡ with_class (table_rows self.old) class row }
    {
        self.classes[class as usize] = Some(row);
    }

    // Fills the place of a security, once its questions are answered.
    #[tactic(auto, using(crate::proofs::Filling::security_filled, crate::proofs::Filling::security_kept))]
    pub(crate) fn put_security(&mut self, security: u16, row: SecurityRow)
        requires { security_refusal (table_rows self.old) security row ≡ Nothing }
        ensures { table_rows self.new ≡ with_security (table_rows self.old) security row }
    {
        self.securities[security as usize] = Some(row);
    }

    // A pair more, once its questions are answered.
    pub(crate) fn put_pair(&mut self, pair: PairRow)
        requires { pair_refusal (table_rows self.old) pair ≡ Nothing }
        ensures { table_rows self.new ≡ with_pair (table_rows self.old) pair }
    {
        self.pairs.push(pair);
    }
}
