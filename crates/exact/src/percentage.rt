// A percentage of an amount, with no rounding.
ghost use Rattle.std.specs.Prelude.{◌≡◌, ◌≤◌};
ghost use Rattle.exact.specs.Sizes.{part_limit, worths_limit};
ghost use Rattle.rules.specs.Margin.{exact};
ghost use Rattle.terms.specs.Limits.{whole};

// A percentage of an amount, in 10^-19 zloty, as a part of a class.
pub(crate) fn percentage(percent: u32, amount: u128) -> u128
    requires lawful { percent ≤ whole }
    requires small { amount ≤ worths_limit }
    ensures part { result ≡ exact.part percent amount }
    ensures small { result ≤ part_limit }
{
    percent as u128 * amount
}
