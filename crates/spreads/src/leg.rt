// A class as a leg of its pairs.
ghost use Rattle.rules.specs.Margin.{Rounding, towards};
ghost use Rattle.std.specs.Prelude.{◌≡◌, ℕ, ◌+◌, ◌*◌, ◌<◌, ◌≤◌, ℤ};
ghost use Rattle.terms.specs.Limits.{whole};

/// A class record as the walk over the pairs sees it: what no pair has matched of its net value, bought positive, and what is
/// credited for the rest. All else of the record is left as it is.
pub trait Leg {
    // The rounding that its credits are of.
    ghost rounding: { Rounding };

    // What is left, and what is credited.
    ghost left: { Self → ℤ };

    ghost credits: { Self → ℕ };

    // The same record with another leftover and other credits.
    ghost with: { Self → ℤ → ℕ → Self };

    // The largest leftover of which credits are counted, how many units of a percentage a unit of credits is, and the most credits.
    ghost largest: { ℕ };

    ghost unit: { ℕ };

    ghost most: { ℕ };

    /// What no pair has matched.
    fn leftover(&self) -> i128
        ensures { result ≡ left self.now };

    /// Takes so much of what is left as matched, for a credit at a rate.
    fn credit(&mut self, matched: u128, crt: u32)
        ensures { crt ≤ whole → matched ≤ largest → credits self.old + rounding.credit crt matched ≤ most
            → self.new ≡ with self.old (towards (left self.old) matched) (credits self.old + rounding.credit crt matched) };

    // No credit is more than its percentage with no rounding, and all credits of a class fit.
    ghost lowered: { (crt matched : ℕ) → unit * rounding.credit crt matched ≤ crt * matched };

    ghost counted: { 0 < unit };

    ghost room: { whole * largest ≤ unit * most };

    // A record shows the leftover and the credits that it is given, the last ones alone; its own are those that it has.
    ghost shows_left: { (leg : Self) (leftover : ℤ) (credited : ℕ) → left (with leg leftover credited) ≡ leftover };

    ghost shows_credits: { (leg : Self) (leftover : ℤ) (credited : ℕ) → credits (with leg leftover credited) ≡ credited };

    ghost replaces: { (leg : Self) (a b : ℤ) (m n : ℕ) → with (with leg a m) b n ≡ with leg b n };

    ghost itself: { (leg : Self) → with leg (left leg) (credits leg) ≡ leg };
}
