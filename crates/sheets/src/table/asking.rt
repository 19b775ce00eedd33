// The questions put to a row before it is taken.
ghost use Rattle.sheets.specs.Drafts.{class_refusal, pair_refusal, security_refusal};
ghost use Rattle.sheets.specs.Filled.{table_rows};
ghost use Rattle.terms.specs.Refusals.{refused_at};
ghost use Rattle.std.specs.Prelude.{◌≡◌};
ghost use Rattle.std.specs.Result.{result_err};

use super::RowTable;
use rules::laws::credit_ceiling;
use rules::rows::{ClassRow, PairRow, SecurityRow};
use terms::fault::Fault;
use terms::limits::{CLASSES, SECURITIES};
use terms::refusal::Refusal;

impl RowTable {
    // Whether a class may have this row.
    pub(crate) fn judge_class(&self, class: u16, row: ClassRow) -> Result<(), Fault>
        ensures { result_err result ≡ refused_at class (class_refusal (table_rows self.now) class row) }
    {
        let refusal = if class as usize >= CLASSES {
            Refusal::UnknownClass
        } else if self.class(class).is_some() {
            Refusal::RepeatedClass
        } else if !row.figures_lawful() {
            Refusal::UnlawfulClass
        } else {
            return Ok(());
        };
        Err(refusal.at(class))
    }

    // Whether a security may have this row.
    pub(crate) fn judge_security(&self, security: u16, row: SecurityRow) -> Result<(), Fault>
        ensures { result_err result ≡ refused_at security (security_refusal (table_rows self.now) security row) }
    {
        let refusal = if security as usize >= SECURITIES || self.security(security).is_some() {
            Refusal::UnknownOrRepeatedSecurity
        } else {
            match self.class(row.class) {
                None => Refusal::ClassWithoutRow,
                Some(class) if row.figures_lawful(class.kind) => return Ok(()),
                Some(_) => Refusal::UnlawfulSecurity,
            }
        };
        Err(refusal.at(security))
    }

    // Whether this pair may come last in the order.
    pub(crate) fn judge_pair(&self, pair: PairRow) -> Result<(), Fault>
        ensures { result_err result ≡ refused_at pair.first (pair_refusal (table_rows self.now) pair) }
    {
        let refusal = match (self.class(pair.first), self.class(pair.second)) {
            (Some(one), Some(other)) if pair.first != pair.second && one.kind == other.kind => {
                if pair.crt > credit_ceiling(one.y, other.y) {
                    Refusal::CreditAboveRate
                } else if self.pairs.is_full() {
                    Refusal::TooManyPairs
                } else {
                    return Ok(());
                }
            }
            _ => Refusal::UnlawfulPair,
        };
        Err(refusal.at(pair.first))
    }
}
