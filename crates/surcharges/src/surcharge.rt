// A surcharge above any sheet: additions to the y and the x of each class. It is a sheet.
ghost use Rattle.rules.proofs.Theorems.{surcharges_lawful};
ghost use Rattle.surcharges.specs.Additions.{additions_in};
ghost use Rattle.surcharges.specs.Surcharges.{Sets, no_additions, with_additions};
ghost use Rattle.std.specs.Prelude.{◌≡◌};
ghost use Rattle.std.proofs.Common.{rules};

use crate::additions::AdditionTable;
use crate::cover::Cover;
use crate::setting::Setting;
use rules::laws::surcharged_row;
use rules::rows::{ClassRow, PairRow, SecurityRow};
use sheets::sheet::Sheet;
use terms::fault::Fault;

/// The sheet below, and what is added to it.
#[derive(Drop)]
pub struct Surcharge<S: Sheet> {
    below: S,
    additions: AdditionTable,
}

impl<S: Sheet> Surcharge<S> {
    /// Every addition is 0.
    pub fn open(below: S) -> Self
        ensures below { result.below ≡ below }
        ensures additions { additions_in result.additions ≡ no_additions }
    {
        Surcharge {
            below,
            additions: AdditionTable::open(),
        }
    }

    /// Replaces the addition to the y and the x of a class: refusals 25 and 26.
    pub fn set(&mut self, setting: Setting) -> Result<(), Fault>
        ensures sets { Sets (λ s. additions_in s.additions) self.old setting result self.new }
        ensures below { self.new.below ≡ self.old.below }
    {
        self.additions.set(setting)
    }
}

impl<S: Sheet> Sheet for Surcharge<S> {
    ghost rows = { λ s. with_additions (additions_in s.additions) (S.Sheet.rows s.below) };

    ghost lawful = { λ s. surcharges_lawful (S.Sheet.rows s.below) (S.Sheet.lawful s.below) (additions_in s.additions).on_y (additions_in s.additions).on_x };

    fn class(&self, class: u16) -> Option<ClassRow> {
        let addition = self.additions.of(class);
        self.below
            .class(class)
            .map(|row| surcharged_row(row, addition))
    }

    fn security(&self, security: u16) -> Option<SecurityRow> {
        self.below.security(security)
    }

    fn pair(&self, place: usize) -> Option<PairRow> {
        self.below.pair(place)
    }
}

impl<S: Sheet> Cover for Surcharge<S> {
    type Below = S;

    type Own = Setting;

    ghost under = { λ s. S.Sheet.rows s.below };

    ghost sound = { λ s. S.Sheet.lawful s.below };

    ghost additions = { λ s. additions_in s.additions };

    ghost means = { λ o. o };

    ghost shown = { Prim.search rules };

    fn open(below: S) -> Self {
        Surcharge::open(below)
    }

    #[tactic(auto, using(crate::proofs::Settings::setting_decided, crate::proofs::Settings::setting_made))]
    fn call(&mut self, own: Option<&Setting>) -> Result<(), Fault> {
        // Kept: tried; a closure of `map_or` lends the surcharge, and what it holds after the call stays open.
        match own {
            Some(own) => self.set(*own),
            None => Ok(()),
        }
    }
}
