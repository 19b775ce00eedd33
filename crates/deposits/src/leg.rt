// A class record as a leg of its pairs.
ghost use Rattle.deposits.specs.Legs.{lowered, room, units_a_grosz};
ghost use Rattle.deposits.specs.Records.{walked};
ghost use Rattle.rules.specs.Margin.{rounded};
ghost use Rattle.std.proofs.Common.{rules};
ghost use Rattle.std.specs.Prelude.{◌^◌};
ghost use Rattle.terms.specs.Money.{largest};

use crate::records::ClassMargin;
use rules::leftover::moved_towards_zero;
use spreads::leg::Leg;
use terms::money::Zloty;

impl Leg for ClassMargin {
    ghost rounding = { rounded };

    ghost left = { λ w. w.leftover.net };

    ghost credits = { λ w. w.kspk.grosz };

    ghost with = { walked };

    ghost largest = { 2 ^ 62 };

    ghost unit = { units_a_grosz };

    ghost most = { largest };

    ghost lowered = { lowered };

    ghost counted = { Prim.search rules };

    ghost room = { room };

    ghost shows_left = { Prim.search rules };

    ghost shows_credits = { Prim.search rules };

    ghost replaces = { Prim.search rules };

    ghost itself = { Prim.search rules };

    fn leftover(&self) -> i128 {
        self.leftover.units().into()
    }

    fn credit(&mut self, matched: u128, crt: u32) {
        // What is matched is never more than a leftover, so that it fits.
        let matched = Zloty::new(u64::try_from(matched).unwrap_or(u64::MAX));
        self.leftover = moved_towards_zero(self.leftover, matched);
        self.kspk += matched.credit(crt);
    }
}
