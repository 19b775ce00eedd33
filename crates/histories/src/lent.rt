// Histories whose tops are closed at the end, so that the law speaks of the lender's book.
ghost use Rattle.std.specs.Prelude.{OnOk};
ghost use Rattle.books.specs.Journals.{journal_account, journal_meaning};
ghost use Rattle.histories.specs.Histories.{at_first, posted_in};
ghost use Rattle.histories.specs.Memories.{memory_of};
ghost use Rattle.histories.specs.Replays.{Closed};
ghost use Rattle.lists.specs.Lists.{Extended, items};
ghost use Rattle.tops.specs.Tallies.{trial_rules};

use crate::replay::{Unopened, replay};
use crate::step::{Entry, Step};
use books::book::Book;
use books::journal::Journal;
use deposits::records::{ClassMargin, Match};
use lists::list::List;
use surcharges::cover::Cover;
use terms::fault::Fault;
use tops::call::TrialCall;
use tops::top::Top;
use trials::trial::Trial;

/// A replay after which the tops are closed, so that the book below comes back: the whole law of `replay`, or its refusal,
/// and then the book, the log and the memory are as they were.
pub fn replay_and_close<T: Top, U: Cover + Drop>(
    book: T::Below,
    sheet: U::Below,
    script: &[Step<T::Own, U::Own>],
    classes: &mut [ClassMargin],
    matches: &mut [Match],
    log: &mut List<'_, Entry>,
) -> (T::Below, Result<(), Fault>)
where
    U::Below: Drop,
    ensures { Closed
        (record {
          rules = T.Top.rules;
          means = U.Cover.means;
          rows = U.Below.Sheet.rows sheet;
          below = T.Below.Book.meaning;
        })
        (record { book = book; memory = memory_of classes.old matches.old; log = log.old })
        script.now
        result.1
        (record { book = result.0; memory = memory_of classes.new matches.new; log = log.new }) }
{
    let replayed: Result<(T, U), Unopened<T::Below, U::Below>> = replay(
        book, sheet, script, classes, matches, log,
    );
    match replayed {
        Ok((top, _)) => (top.close(), Ok(())),
        Err(unopened) => (unopened.book, Err(unopened.fault)),
    }
}

/// The same at a trial layer above a book that is lent: the law speaks of the lender's book.
pub fn replay_on_lent<B: Book, U: Cover + Drop>(
    book: &mut B,
    sheet: U::Below,
    script: &[Step<TrialCall, U::Own>],
    classes: &mut [ClassMargin],
    matches: &mut [Match],
    log: &mut List<'_, Entry>,
) -> Result<(), Fault>
where
    U::Below: Drop,
    ensures { Closed
        (record {
          rules = trial_rules;
          means = U.Cover.means;
          rows = U.Below.Sheet.rows sheet;
          below = B.Book.meaning;
        })
        (record { book = book.old; memory = memory_of classes.old matches.old; log = log.old })
        script.now
        result
        (record { book = book.new; memory = memory_of classes.new matches.new; log = log.new }) }
{
    let (_, answer) = replay_and_close::<Trial<&mut B>, U>(
        book, sheet, script, classes, matches, log,
    );
    answer
}

/// The same over a journal that is lent, which then lists, behind the bookings that it listed before, those that the entries
/// post, in their order, each in the first place that was free.
#[tactic(auto, using(crate::proofs::Lenders::lender_listed))]
pub fn replay_on_journal<U: Cover + Drop>(
    journal: &mut Journal<'_>,
    sheet: U::Below,
    script: &[Step<TrialCall, U::Own>],
    classes: &mut [ClassMargin],
    matches: &mut [Match],
    log: &mut List<'_, Entry>,
) -> Result<(), Fault>
where
    U::Below: Drop,
    ensures law { Closed
        (record {
          rules = trial_rules;
          means = U.Cover.means;
          rows = U.Below.Sheet.rows sheet;
          below = journal_meaning;
        })
        (record { book = journal.old; memory = memory_of classes.old matches.old; log = log.old })
        script.now
        result
        (record { book = journal.new; memory = memory_of classes.new matches.new; log = log.new }) }
    ensures listed { OnOk result (Extended
        (posted_in trial_rules U.Cover.means (at_first trial_rules (journal_account journal.old)) script.now (items log.new))
        journal.old.list
        journal.new.list) }
{
    replay_on_lent::<Journal, U>(journal, sheet, script, classes, matches, log)
}
