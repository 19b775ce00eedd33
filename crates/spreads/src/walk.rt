// The walk over the pairs, in place over the legs.
ghost use Rattle.std.specs.Prelude.{◌≡◌, ◌+◌, ◌<◌, ◌≤◌, [], ◌∷◌, ◌++◌, length};
ghost use Rattle.spreads.specs.Legs.{Fits, Fresh, Sound, Walked, part, served, told};
ghost use Rattle.terms.specs.Limits.{class_count, pair_limit};

use crate::leg::Leg;
use crate::spread::Spread;
use arrayvec::ArrayVec;
use rules::leftover::matched_units;
use rules::rows::PairRow;
use sheets::pairs::pairs_of;
use sheets::sheet::Sheet;
use terms::limits::{CLASSES, PAIRS};

// Serves one pair, and answers how much it matches.
fn serve<L: Leg>(legs: &mut [L], pair: PairRow) -> u128
    requires sound { Sound pair }
    requires wide { class_count ≤ length legs.old }
    ensures matched { (none : L) → result ≡ part L.left none pair legs.old }
    ensures legs { (none : L) → Fits L.rounding L.left L.credits L.largest L.most none pair legs.old → legs.new ≡ served L.rounding L.left L.credits L.with none pair legs.old }
{
    let first = pair.first as usize;
    let second = pair.second as usize;
    let matched = matched_units(legs[first].leftover(), legs[second].leftover());
    legs[first].credit(matched, pair.crt);
    legs[second].credit(matched, pair.crt);
    matched
}

// Serves one pair, and tells how much it matches.
fn serve_and_tell<L: Leg>(legs: &mut [L], spreads: &mut ArrayVec<Spread, PAIRS>, pair: PairRow)
    requires sound { Sound pair }
    requires wide { class_count ≤ length legs.old }
    requires room { length spreads.old.items < pair_limit }
    ensures legs { (none : L) → Fits L.rounding L.left L.credits L.largest L.most none pair legs.old → legs.new ≡ served L.rounding L.left L.credits L.with none pair legs.old }
    ensures counted { length spreads.new.items ≡ length spreads.old.items + 1 }
    ensures told { (none : L) → spreads.new.items ≡ spreads.old.items ++ told pair (part L.left none pair legs.old) ∷ [] }
{
    let matched = serve(legs, pair);
    spreads.push(Spread { pair, matched });
}

/// Serves the pairs of the sheet in their order, each once, and answers what each matches. Of a leg for each class, of which nothing is
/// credited and whose leftovers are no larger than the largest, it leaves what the margin is defined by.
pub fn walk<L: Leg, S: Sheet>(sheet: &S, legs: &mut [L]) -> ArrayVec<Spread, PAIRS>
    ensures { (none : L) → Fresh L.left L.credits L.largest none legs.old → Walked L.rounding L.left L.with (S.Sheet.rows sheet.now).pairs none legs.old legs.new result.items }
{
    let mut spreads = ArrayVec::new();
    if legs.len() < CLASSES {
        return spreads;
    }
    for pair in pairs_of(sheet) {
        serve_and_tell(legs, &mut spreads, pair);
    }
    spreads
}
