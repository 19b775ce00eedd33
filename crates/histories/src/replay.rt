// The law over every history, on one call.
ghost use Rattle.histories.specs.Demands.{Right};
ghost use Rattle.std.specs.Prelude.{◌≡◌, ℕ, ◌<◌, ◌≤◌, [], length, drop, min, MatchResult};
ghost use Rattle.histories.specs.Histories.{Fits, History, noted, noted_in, posted_by, posted_in, tally};
ghost use Rattle.histories.specs.Memories.{answered_into, entered_into, memory_of, written_by};
ghost use Rattle.lists.specs.Lists.{items, lender, memory};
ghost use Rattle.surcharges.specs.Surcharges.{with_additions};
ghost use Rattle.tops.specs.Tallies.{tally_nets};
ghost use Rattle.trials.specs.Trials.{Taken};

use crate::step::{Entry, Step};
use crate::telling::Telling;
use deposits::deposit::deposit;
use deposits::records::{ClassMargin, Match};
use lists::list::List;
use surcharges::cover::{Cover, call_own};
use terms::fault::Fault;
use terms::refusal::Refusal;
use tops::top::Top;

/// A replay that did not begin: the fault, and the book and the sheet as they were.
#[derive(Drop)]
pub struct Unopened<B, S> {
    pub fault: Fault,
    pub book: B,
    pub sheet: S,
}

// The tops of the two piles, at which the calls of a script are made.
struct Tops<T, U> {
    top: T,
    cover: U,
}

// Kept: script, log and the two memories of a deposit stand side by side, since a struct of these borrows is no plainer: each
// contract would also have to say that it still borrows all of them.
impl<T: Top, U: Cover> Tops<T, U> {
    // A deposit that is handed all of this memory, and what it wrote, copied out of it.
    fn tell(&self, classes: &mut [ClassMargin], matches: &mut [Match]) -> Result<Telling, Fault>
        ensures right { Right (length classes.old) (length matches.old) (U.Cover.under self.now.cover) (with_additions (U.Cover.additions self.now.cover) (U.Cover.under self.now.cover)) (tally_nets (T.Top.tally self.now.top)) result }
        ensures written { memory_of classes.new matches.new ≡ answered_into (memory_of classes.old matches.old) result }
    {
        let mut list = List::over(matches);
        let summary = deposit(&self.top, &self.cover, classes, &mut list)?;
        Ok(Telling::of(summary, classes, list.records()))
    }

    // A deposit that is handed so many places of both, as far as there are so many.
    fn tell_within(
        &self,
        class_places: usize,
        match_places: usize,
        classes: &mut [ClassMargin],
        matches: &mut [Match],
    ) -> Result<Telling, Fault>
        ensures right { Right (min class_places (length classes.old)) (min match_places (length matches.old)) (U.Cover.under self.now.cover) (with_additions (U.Cover.additions self.now.cover) (U.Cover.under self.now.cover)) (tally_nets (T.Top.tally self.now.top)) result }
        ensures written { memory_of classes.new matches.new ≡ answered_into (memory_of classes.old matches.old) result }
    {
        let class_places = class_places.min(classes.len());
        let match_places = match_places.min(matches.len());
        self.tell(&mut classes[..class_places], &mut matches[..match_places])
    }

    // One step at the two tops, and what it gave.
    fn take_step(
        &mut self,
        step: &Step<T::Own, U::Own>,
        classes: &mut [ClassMargin],
        matches: &mut [Match],
    ) -> Entry
        ensures fits { Fits T.Top.rules U.Cover.means (U.Cover.under self.old.cover) (length classes.old) (length matches.old)
            (tally (T.Top.tally self.old.top) (U.Cover.additions self.old.cover)) step.now result }
        ensures noted { tally (T.Top.tally self.new.top) (U.Cover.additions self.new.cover)
            ≡ noted T.Top.rules U.Cover.means (tally (T.Top.tally self.old.top) (U.Cover.additions self.old.cover)) step.now result }
        ensures posted { Taken T.Below.Book.meaning
            (T.Top.beneath self.old.top)
            (posted_by T.Top.rules U.Cover.means (tally (T.Top.tally self.old.top) (U.Cover.additions self.old.cover)) step.now result)
            (T.Top.beneath self.new.top) }
        ensures under { U.Cover.under self.new.cover ≡ U.Cover.under self.old.cover }
        ensures written { memory_of classes.new matches.new ≡ entered_into (memory_of classes.old matches.old) result }
    {
        // Kept: a script is data that callers write down and log; closures could not be compared with the tally.
        match step {
            Step::Book(call) => Entry::Done(self.top.call(call)),
            Step::Sheet(own) => Entry::Done(call_own(&mut self.cover, own)),
            Step::Deposit {
                classes: class_places,
                matches: match_places,
            } => Entry::Told(self.tell_within(*class_places, *match_places, classes, matches)),
        }
    }

    // Takes each step of the script and appends what it gave.
    fn run(
        &mut self,
        script: &[Step<T::Own, U::Own>],
        classes: &mut [ClassMargin],
        matches: &mut [Match],
        log: &mut List<'_, Entry>,
    )
        requires empty { items log.old ≡ [] }
        requires room { length script.now ≤ length (memory log.old) }
        ensures log { lender log.new ≡ lender log.old }
        ensures history { History T.Top.rules U.Cover.means (U.Cover.under self.old.cover) (length classes.old) (length matches.old)
            (tally (T.Top.tally self.old.top) (U.Cover.additions self.old.cover)) script.now (items log.new) }
        ensures noted { tally (T.Top.tally self.new.top) (U.Cover.additions self.new.cover)
            ≡ noted_in T.Top.rules U.Cover.means (tally (T.Top.tally self.old.top) (U.Cover.additions self.old.cover)) script.now (items log.new) }
        ensures posted { Taken T.Below.Book.meaning
            (T.Top.beneath self.old.top)
            (posted_in T.Top.rules U.Cover.means (tally (T.Top.tally self.old.top) (U.Cover.additions self.old.cover)) script.now (items log.new))
            (T.Top.beneath self.new.top) }
        ensures under { U.Cover.under self.new.cover ≡ U.Cover.under self.old.cover }
        ensures written { memory_of classes.new matches.new ≡ written_by (items log.new) (memory_of classes.old matches.old) }
        ensures past { drop (length script.now) (memory log.new) ≡ drop (length script.now) (memory log.old) }
    {
        for step in script {
            let entry = self.take_step(step, classes, matches);
            log.append(entry).unwrap();
        }
    }
}

ghost use Rattle.histories.specs.Replays.{HandedBack, Opened};

// Opens both tops, and makes the calls.
// Kept: as `replay`: memory is handed in (a rule of the project), and a struct of these borrows is no plainer.
#[tactic(auto, using(crate::proofs::Steps::blank))]
fn begin<T: Top, U: Cover>(
    book: T::Below,
    sheet: U::Below,
    script: &[Step<T::Own, U::Own>],
    classes: &mut [ClassMargin],
    matches: &mut [Match],
    log: &mut List<'_, Entry>,
) -> (T, U)
    requires { length script.now ≤ length (memory log.old) }
    ensures { Opened
        (record {
          rules = T.Top.rules;
          means = U.Cover.means;
          rows = U.Below.Sheet.rows sheet;
          below = T.Below.Book.meaning;
        })
        (record { book = book; memory = memory_of classes.old matches.old; log = log.old })
        script.now
        (record { book = T.Top.beneath result.0; memory = memory_of classes.new matches.new; log = log.new })
        (record { tally = tally (T.Top.tally result.0) (U.Cover.additions result.1); account = T.Book.meaning.account result.0; rows = U.Sheet.rows result.1 }) }
{
    log.clear();
    let mut tops: Tops<T, U> = Tops {
        top: T::open(book),
        cover: U::open(sheet),
    };
    tops.run(script, classes, matches, log);
    let Tops { top, cover } = tops;
    (top, cover)
}

/// Opens a top above a book and one above a sheet, and makes the calls of a script at them. The log is then a history: one
/// entry a call, as the tally of those before it decides, each deposit told is what a deposit promises, and the book below
/// took what the entries post. Where the log has too few places no call is made, and book and sheet are given back.
// Kept: memory is handed in (a rule of the project); a struct of these borrows is no plainer, as at `Tops`.
pub fn replay<T: Top, U: Cover>(
    book: T::Below,
    sheet: U::Below,
    script: &[Step<T::Own, U::Own>],
    classes: &mut [ClassMargin],
    matches: &mut [Match],
    log: &mut List<'_, Entry>,
) -> Result<(T, U), Unopened<T::Below, U::Below>>
    ensures { MatchResult result
        (λ tops. Opened
        (record {
          rules = T.Top.rules;
          means = U.Cover.means;
          rows = U.Below.Sheet.rows sheet;
          below = T.Below.Book.meaning;
        })
        (record { book = book; memory = memory_of classes.old matches.old; log = log.old })
        script.now
        (record { book = T.Top.beneath tops.0; memory = memory_of classes.new matches.new; log = log.new })
        (record { tally = tally (T.Top.tally tops.0) (U.Cover.additions tops.1); account = T.Book.meaning.account tops.0; rows = U.Sheet.rows tops.1 }))
        (λ unopened. HandedBack
        (record {
          rules = T.Top.rules;
          means = U.Cover.means;
          rows = U.Below.Sheet.rows sheet;
          below = T.Below.Book.meaning;
        })
        (record { book = book; memory = memory_of classes.old matches.old; log = log.old })
        script.now
        sheet unopened (memory_of classes.new matches.new) log.new) }
{
    if log.room() < script.len() {
        return Err(Unopened {
            fault: Refusal::NoSuchPlace.at(0),
            book,
            sheet,
        });
    }
    Ok(begin(book, sheet, script, classes, matches, log))
}
