// What a deposit tells, copied out of the memory that it writes.
ghost use Rattle.std.specs.Prelude.{◌≡◌, ◌≤◌, length, take};
ghost use Rattle.std.specs.List.{slice_get};
ghost use Rattle.histories.specs.Tellings.{padded, telling_of};
ghost use Rattle.terms.specs.Limits.{class_count, pair_limit};

use deposits::records::{ClassMargin, Match, Summary};
use std::array;
use terms::limits::{CLASSES, PAIRS};

/// The summary, one record a class, and one match a pair at the front of as many places as a sheet has pairs at most, with
/// none in the places behind them.
// Kept: no plainer: an `Entry` is `Copy`, so that `List::read` reads a log, and the library's `ArrayVec` is not.
#[derive(Clone, Copy)]
pub struct Telling {
    pub summary: Summary,
    pub classes: [ClassMargin; CLASSES],
    pub matches: [Option<Match>; PAIRS],
}

// The records of the classes.
fn class_records(classes: &[ClassMargin]) -> [ClassMargin; CLASSES]
    requires { class_count ≤ length classes.now }
    ensures { result ≡ take class_count classes.now }
{
    *classes.first_chunk::<CLASSES>().unwrap()
}

// The match at a place, if there is one.
fn match_at(matches: &[Match], place: usize) -> Option<Match>
    ensures { result ≡ slice_get matches.now place }
{
    matches.get(place).copied()
}

// The matches, and none in the places behind them.
fn match_records(matches: &[Match]) -> [Option<Match>; PAIRS]
    requires { length matches.now ≤ pair_limit }
    ensures { result ≡ padded matches.now }
{
    array::from_fn(|place| match_at(matches, place))
}

impl Telling {
    // What a deposit left in the memory.
    pub(crate) fn of(summary: Summary, classes: &[ClassMargin], matches: &[Match]) -> Telling
        requires classes { class_count ≤ length classes.now }
        requires matches { length matches.now ≤ pair_limit }
        ensures { result ≡ telling_of summary classes.now matches.now }
    {
        Telling {
            summary,
            classes: class_records(classes),
            matches: match_records(matches),
        }
    }
}
