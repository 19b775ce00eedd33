// The top of a pile of sheets, at which settings are made.
ghost use Rattle.rules.specs.Rows.{Lawful, Rows};
ghost use Rattle.std.specs.Prelude.{◌≡◌, false, IfSome, is_ok, is_some};
ghost use Rattle.std.specs.declared.result.Result.TheVariants.{Ok as Done};
ghost use Rattle.surcharges.specs.Surcharges.{Additions, no_additions, set_by, setting_answer, with_additions};
ghost use Rattle.surcharges.specs.declared.setting.Setting.{Setting as Asked};

use sheets::sheet::Sheet;
use terms::fault::Fault;

/// A sheet that is another one with additions. With no surcharge the additions are 0, and no setting can be made.
pub trait Cover: Sheet + Sized {
    /// The sheet that it is opened over.
    type Below: Sheet;

    /// The calls that only this top has.
    type Own;

    // The rows of the sheet below.
    ghost under: { Self → Rows };

    // They obey the laws of a sheet.
    ghost sound: { (s : Self) → Lawful (under s) };

    // What is added to them.
    ghost additions: { Self → Additions };

    // Each of its own calls is a setting.
    ghost means: { Self.Own → Asked };

    /// Opens over a sheet, with nothing added.
    fn open(below: Self::Below) -> Self
        ensures under { under result ≡ Self.Below.Sheet.rows below }
        ensures additions { additions result ≡ no_additions };

    /// Makes one of its own calls, or none: with none, nothing changes.
    // Kept: a method that takes a call of a type without values is a contract that no call can meet, so a call may be none.
    fn call(&mut self, own: Option<&Self::Own>) -> Result<(), Fault>
        ensures answer { IfSome own.entry (λ o. result ≡ setting_answer (means o.now)) }
        ensures additions { IfSome own.entry (λ o. additions self.new ≡ set_by (additions self.old) (means o.now) (is_ok result)) }
        ensures under { under self.new ≡ under self.old }
        ensures refused { is_ok result ≡ false → self.new ≡ self.old }
        ensures none { is_some own.entry ≡ false → result ≡ Done tt }
        ensures unchanged { is_some own.entry ≡ false → self.new ≡ self.old };

    // The rows are those below with the additions.
    ghost shown: { (s : Self) → Self.Sheet.rows s ≡ with_additions (additions s) (under s) };
}

/// Makes one of a cover's own calls.
pub fn call_own<U: Cover>(cover: &mut U, own: &U::Own) -> Result<(), Fault>
    ensures answer { result ≡ setting_answer (U.Cover.means own.now) }
    ensures additions { U.Cover.additions cover.new ≡ set_by (U.Cover.additions cover.old) (U.Cover.means own.now) (is_ok result) }
    ensures under { U.Cover.under cover.new ≡ U.Cover.under cover.old }
    ensures refused { is_ok result ≡ false → cover.new ≡ cover.old }
{
    cover.call(Some(own))
}
