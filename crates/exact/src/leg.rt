// A class as a leg of its pairs, with no rounding.
ghost use Rattle.exact.specs.Classes.{walked};
ghost use Rattle.exact.specs.Legs.{lowered, room};
ghost use Rattle.exact.specs.Sizes.{part_limit, worths_limit};
ghost use Rattle.rules.specs.Margin.{exact};
ghost use Rattle.std.proofs.Common.{rules};

use crate::records::Class;
use rules::leftover::units_towards_zero;
use spreads::leg::Leg;

impl Leg for Class {
    ghost rounding = { exact };

    ghost left = { λ w. w.leftover };

    ghost credits = { λ w. w.credits };

    ghost with = { walked };

    ghost largest = { worths_limit };

    ghost unit = { 1 };

    ghost most = { part_limit };

    ghost lowered = { lowered };

    ghost counted = { Prim.search rules };

    ghost room = { room };

    ghost shows_left = { Prim.search rules };

    ghost shows_credits = { Prim.search rules };

    ghost replaces = { Prim.search rules };

    ghost itself = { Prim.search rules };

    fn leftover(&self) -> i128 {
        self.leftover
    }

    fn credit(&mut self, matched: u128, crt: u32) {
        self.leftover = units_towards_zero(self.leftover, matched);
        let credit = u128::from(crt).saturating_mul(matched);
        self.credits = self.credits.saturating_add(credit);
    }
}
