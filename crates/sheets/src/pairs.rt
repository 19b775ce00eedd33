// The pairs of a sheet, one after the other in the order of priority.
ghost use Rattle.std.specs.Iterator.{YieldsFirst, item_count};
ghost use Rattle.std.specs.Iterator.Runs.{YieldsInOrder};
ghost use Rattle.std.specs.Prelude.{◌≡◌, ◌+◌, ◌<◌, [], ◌∷◌, drop, IfSome, MatchOption};
ghost use Rattle.terms.specs.Limits.{pair_limit};
ghost use Rattle.rules.specs.declared.rows.PairRow.{PairRow as Pair};

use crate::sheet::Sheet;
use rules::rows::PairRow;
use std::marker::Model;

/// A sheet, and the place of the pair that comes next. It is seen as the list of the pairs that are left.
// Kept: no plainer: `pair` is public, and a slice beside it would ask more of each sheet; a chain over `(0..)` has no type that
// can be handed out; so the place is counted.
#[derive(Drop)]
pub struct Pairs<'a, S: Sheet> {
    sheet: &'a S,
    place: usize,
}

impl<'a, S: Sheet> Model for Pairs<'a, S> {
    ghost use Rattle.std.specs.Prelude.{List, drop};
    ghost use Rattle.rules.specs.declared.rows.PairRow.{PairRow as Pair};

    ghost Value = { List Pair };

    ghost view = { λ p. drop p.place (S.Sheet.rows p.sheet.now).pairs };
}

/// The pairs of a sheet, from the first on.
#[tactic(auto, using(crate::proofs::Passing::left_runs))]
pub fn pairs_of<S: Sheet>(sheet: &S) -> Pairs<'_, S>
    ensures left { result ≡ (S.Sheet.rows sheet.now).pairs }
    ensures runs { YieldsInOrder (YieldsFirst {A = Pair} (λ left. left)) (λ left. left) }
{
    Pairs { sheet, place: 0 }
}

// The first of the pairs from a place on.
#[tactic(auto, using(crate::proofs::Passing::left_from, std::proofs::lemmas::Option::slice_get_within))]
fn first_from<S: Sheet>(sheet: &S, place: usize) -> Option<PairRow>
    ensures first { let pairs = (S.Sheet.rows sheet.now).pairs in MatchOption result (drop place pairs ≡ []) (λ pair. drop place pairs ≡ pair ∷ drop (place + 1) pairs) }
    ensures small { IfSome result (λ _. place < pair_limit) }
{
    sheet.pair(place)
}

impl<'a, S: Sheet> Iterator for Pairs<'a, S> {
    type Item = PairRow;

    ghost next_gives = { YieldsFirst (λ left. left) };

    ghost remaining = { item_count (λ left. left) };

    fn next(&mut self) -> Option<PairRow> {
        let pair = first_from(self.sheet, self.place)?;
        self.place += 1;
        Some(pair)
    }
}
