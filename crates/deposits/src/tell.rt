// What the pairs match, told.
ghost use Rattle.std.specs.Prelude.{◌≡◌, ℕ, ◌++◌, ◌^◌, ◌<◌, ◌≤◌, drop, length, map, slice_index_or};
ghost use Rattle.deposits.specs.Told.{told_of};
ghost use Rattle.lists.specs.Lists.{Appended, items, lender, memory};
ghost use Rattle.spreads.specs.Legs.{no_spread};

use crate::records::Match;
use lists::list::List;
use spreads::spread::Spread;
use terms::money::Zloty;

// Lists how much a pair matches.
fn tell_one(matches: &mut List<'_, Match>, spread: &Spread)
    requires room { length (items matches.old) < length (memory matches.old) }
    requires small { spread.now.matched < 2 ^ 64 }
    ensures lender { lender matches.new ≡ lender matches.old }
    ensures told { Appended (told_of spread.now) matches.old matches.new }
{
    matches
        .append(Match {
            first: spread.pair.first,
            second: spread.pair.second,
            matched: Zloty::new(spread.matched as u64),
        })
        .unwrap();
}

// The list then tells how much each pair matches, in their order, and nothing else.
pub(crate) fn tell(spreads: &[Spread], matches: &mut List<'_, Match>)
    requires room { length spreads.now ≤ length (memory matches.old) }
    requires small { (i : ℕ) → (slice_index_or spreads.now i no_spread).matched < 2 ^ 64 }
    ensures lender { lender matches.new ≡ lender matches.old }
    ensures items { items matches.new ≡ map told_of spreads.now }
    ensures memory { memory matches.new ≡ map told_of spreads.now ++ drop (length spreads.now) (memory matches.old) }
{
    matches.clear();
    for spread in spreads {
        tell_one(matches, spread);
    }
}
