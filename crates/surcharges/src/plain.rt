// A sheet with no surcharge above it.
ghost use Rattle.surcharges.specs.Surcharges.{no_additions, no_setting};
ghost use Rattle.std.proofs.Common.{rules};

use crate::cover::Cover;
use rules::rows::{ClassRow, PairRow, SecurityRow};
use sheets::sheet::Sheet;
use std::convert::Infallible;
use terms::fault::Fault;

/// The sheet alone.
#[derive(Drop)]
pub struct Plain<S: Sheet> {
    sheet: S,
}

impl<S: Sheet> Sheet for Plain<S> {
    ghost rows = { λ s. S.Sheet.rows s.sheet };

    ghost lawful = { λ s. S.Sheet.lawful s.sheet };

    fn class(&self, class: u16) -> Option<ClassRow> {
        self.sheet.class(class)
    }

    fn security(&self, security: u16) -> Option<SecurityRow> {
        self.sheet.security(security)
    }

    fn pair(&self, place: usize) -> Option<PairRow> {
        self.sheet.pair(place)
    }
}

impl<S: Sheet> Cover for Plain<S> {
    type Below = S;

    type Own = Infallible;

    ghost under = { λ s. S.Sheet.rows s.sheet };

    ghost sound = { λ s. S.Sheet.lawful s.sheet };

    ghost additions = { λ s. no_additions };

    ghost means = { no_setting };

    ghost shown = { Prim.search rules };

    fn open(below: S) -> Self {
        Plain { sheet: below }
    }

    fn call(&mut self, own: Option<&Infallible>) -> Result<(), Fault> {
        // Kept: no plainer: the match shows that there is no such call; `map_or` would need a closure that nothing can call.
        match own {
            Some(own) => match *own {},
            None => Ok(()),
        }
    }
}
