// The desks: what each is opened over, and its day.
ghost use Rattle.std.specs.Prelude.{◌≡◌, ◌≤◌, IfOk, MatchResult, OnOk, length, take};
ghost use Rattle.books.specs.Journals.{journal_meaning};
ghost use Rattle.replay.specs.Days.{Answered, DayOf, Ready, entry_places, given};
ghost use Rattle.replay.specs.Scripts.{NoCall, trial_call};
ghost use Rattle.tops.specs.Tallies.{trial_rules};

use crate::answer::{Outcome, Unmade, answers_of};
use crate::order::{Desk, Memory, Order};
use crate::script::{OwnCall, script_of};
use crate::sheet::{pairs_sheet, surcharged_sheet};
use crate::spoken::DayLines;
use books::book::Book;
use books::booking::Booking;
use books::journal::Journal;
use books::table::NetTable;
use deposits::records::{ClassMargin, Match};
use histories::lent::{replay_and_close, replay_on_journal, replay_on_lent};
use histories::step::{Entry, Step};
use lists::list::List;
use sheets::duration_rates::DurationRates2020;
use sheets::rate_sheet::RateSheet;
use std::alloc::{AllocError, Global};
use std::io::{LineWriter, Write};
use surcharges::cover::Cover;
use surcharges::plain::Plain;
use surcharges::surcharge::Surcharge;
use terms::fault::Fault;
use terms::limits::{CLASSES, PAIRS};
use tops::bare::Bare;
use tops::call::TrialCall;
use tops::top::Top;
use trials::trial::Trial;

// How many places each memory has.
#[derive(Clone, Copy)]
pub(crate) struct Places {
    classes: usize,
    matches: usize,
    // as many as there are calls, where nothing is said
    entries: Option<usize>,
    bookings: usize,
}

impl Places {
    // Room for every answer, and for two bookings.
    pub(crate) const ENOUGH: Places = Places {
        classes: CLASSES,
        matches: PAIRS,
        entries: None,
        bookings: 2,
    };

    // Gives one of them so many places.
    pub(crate) fn give(&mut self, of: Memory, places: u16)
        ensures { self.new ≡ given of places self.old }
    {
        let places = places as usize;
        match of {
            Memory::Classes => self.classes = places,
            Memory::Matches => self.matches = places,
            Memory::Entries => self.entries = Some(places),
            Memory::Bookings => self.bookings = places,
        }
    }
}

// Kept: no plainer: it only fills a journal's memory; a Default of Booking, in books, would be there for this one use.
const NO_BOOKING: Booking = Booking {
    security: 0,
    quantity: 0,
};

// Kept: as a booking: it only fills the memory of a log.
const NO_ENTRY: Entry = Entry::Done(Ok(()));

// The rates of January 2020, with no surcharge above them.
type Rates2020 = Plain<DurationRates2020>;

// What the calls of a day are made with: their script, and the memory that deposits get.
#[derive(Drop)]
struct Calls<O, P> {
    script: Vec<Step<O, P>>,
    classes: Vec<ClassMargin>,
    matches: Vec<Match>,
}

// What a day needs: the orders, and how much memory their calls get.
#[derive(Clone, Copy)]
pub(crate) struct Day<'a> {
    pub(crate) heap: Global,
    pub(crate) orders: &'a [Order],
    pub(crate) places: Places,
}

impl<'a> Day<'a> {
    // The script of the orders, and the memory; or an order that the tops have no call for.
    fn calls<O: OwnCall, P: OwnCall>(&self) -> Result<Result<Calls<O, P>, Order>, AllocError>
        ensures { IfOk result (λ made. MatchResult made
            (λ calls. Ready O.OwnCall.asked P.OwnCall.asked self.now.places self.now.orders.now calls)
            (λ order. NoCall O.OwnCall.asked P.OwnCall.asked self.now.orders.now order)) }
    {
        let heap = self.heap;
        let places = self.places;
        let script = match script_of::<O, P>(heap, self.orders)? {
            Ok(script) => script,
            Err(order) => return Ok(Err(order)),
        };
        Ok(Ok(Calls {
            script,
            classes: vec![in heap; ClassMargin::NONE; places.classes]?,
            matches: vec![in heap; Match::NONE; places.matches]?,
        }))
    }

    // How many places the log has.
    fn log_places(&self) -> usize
        ensures { result ≡ entry_places self.now.places self.now.orders.now }
    {
        self.places.entries.unwrap_or(self.orders.len())
    }

    // A journal's memory.
    fn booking_memory(&self) -> Result<Vec<Booking>, AllocError> {
        vec![in self.heap; NO_BOOKING; self.places.bookings]
    }

    // Each order beside what its call gave, or why no call was made.
    fn outcome<'m>(&self, made: Result<(), Fault>, entries: &'m [Entry]) -> Outcome<'a, 'm>
        requires { OnOk made (length self.now.orders.now ≤ length entries.now) }
        ensures { Answered self.now.orders.now (take (length self.now.orders.now) entries.now) made result }
    {
        match made {
            Ok(()) => Ok(answers_of(self.orders, entries)),
            Err(fault) => Err(Unmade::Refused(fault)),
        }
    }

    // The day of a desk over a book that is handed in, and the book beneath after it.
    fn over<'m, T: Top, U: Cover + Drop>(
        &self,
        book: T::Below,
        sheet: U::Below,
        entries: &'m mut [Entry],
    ) -> Result<(T::Below, Outcome<'a, 'm>), AllocError>
    where
        T::Own: OwnCall,
        U::Own: OwnCall,
        T::Below: Drop,
        U::Below: Drop,
        requires { length entries.old ≡ entry_places self.now.places self.now.orders.now }
        ensures { IfOk result (λ day. DayOf T.Own.OwnCall.asked U.Own.OwnCall.asked
            (record {
              rules = T.Top.rules;
              means = U.Cover.means;
              rows = U.Below.Sheet.rows sheet;
              below = T.Below.Book.meaning;
            })
            self.now.places book self.now.orders.now day.1 day.0) }
    {
        let Calls {
            script,
            mut classes,
            mut matches,
        } = match self.calls::<T::Own, U::Own>()? {
            Ok(calls) => calls,
            Err(order) => return Ok((book, Err(Unmade::NoCall(order)))),
        };
        let mut log = List::over(entries);
        let (beneath, made) = replay_and_close::<T, U>(
            book,
            sheet,
            &script,
            &mut classes,
            &mut matches,
            &mut log,
        );
        Ok((beneath, self.outcome(made, entries)))
    }

    // The day of a desk with a trial layer above a book that is lent.
    fn on_lent<'m, B: Book, U: Cover + Drop>(
        &self,
        book: &mut B,
        sheet: U::Below,
        entries: &'m mut [Entry],
    ) -> Result<Outcome<'a, 'm>, AllocError>
    where
        U::Own: OwnCall,
        U::Below: Drop,
        requires { length entries.old ≡ entry_places self.now.places self.now.orders.now }
        ensures { IfOk result (λ outcome. DayOf trial_call U.Own.OwnCall.asked
            (record {
              rules = trial_rules;
              means = U.Cover.means;
              rows = U.Below.Sheet.rows sheet;
              below = B.Book.meaning;
            })
            self.now.places book.old self.now.orders.now outcome book.new) }
    {
        let Calls {
            script,
            mut classes,
            mut matches,
        } = match self.calls::<TrialCall, U::Own>()? {
            Ok(calls) => calls,
            Err(order) => return Ok(Err(Unmade::NoCall(order))),
        };
        let mut log = List::over(entries);
        let made = replay_on_lent::<B, U>(
            book,
            sheet,
            &script,
            &mut classes,
            &mut matches,
            &mut log,
        );
        Ok(self.outcome(made, entries))
    }

    // The day of a desk with a trial layer above a journal.
    fn on_journal<'m, U: Cover + Drop>(
        &self,
        journal: &mut Journal<'_>,
        sheet: U::Below,
        entries: &'m mut [Entry],
    ) -> Result<Outcome<'a, 'm>, AllocError>
    where
        U::Own: OwnCall,
        U::Below: Drop,
        requires { length entries.old ≡ entry_places self.now.places self.now.orders.now }
        ensures { IfOk result (λ outcome. DayOf trial_call U.Own.OwnCall.asked
            (record {
              rules = trial_rules;
              means = U.Cover.means;
              rows = U.Below.Sheet.rows sheet;
              below = journal_meaning;
            })
            self.now.places journal.old self.now.orders.now outcome journal.new) }
    {
        let Calls {
            script,
            mut classes,
            mut matches,
        } = match self.calls::<TrialCall, U::Own>()? {
            Ok(calls) => calls,
            Err(order) => return Ok(Err(Unmade::NoCall(order))),
        };
        let mut log = List::over(entries);
        let made = replay_on_journal::<U>(
            journal,
            sheet,
            &script,
            &mut classes,
            &mut matches,
            &mut log,
        );
        Ok(self.outcome(made, entries))
    }
}

// Says what a day gave, and what is kept beneath the desk. Each line is written out by itself.
fn say<B: Book + Drop>(
    rt: &HostRuntime,
    outcome: &Outcome<'_, '_>,
    beneath: &B,
) -> anyhow::Result<()> {
    let day = DayLines { outcome, beneath };
    let mut lines = LineWriter::new(rt.alloc(), rt.stdout())?;
    write!(lines, "{day}")?;
    lines.flush()?;
    Ok(())
}

// Each desk has a function of its own, so that no day takes the stack of all.
impl Day<'_> {
    fn at_rates(&self, rt: &HostRuntime) -> anyhow::Result<()> {
        let mut entries = vec![in self.heap; NO_ENTRY; self.log_places()]?;
        let (table, outcome) = self.over::<Trial<NetTable>, Rates2020>(
            NetTable::open(),
            DurationRates2020,
            &mut entries,
        )?;
        say(rt, &outcome, &table)
    }

    fn at_pairs(&self, rt: &HostRuntime) -> anyhow::Result<()> {
        let mut entries = vec![in self.heap; NO_ENTRY; self.log_places()]?;
        let (layer, outcome) = self.over::<Trial<Trial<NetTable>>, Surcharge<RateSheet>>(
            Trial::open(NetTable::open()),
            pairs_sheet()?,
            &mut entries,
        )?;
        say(rt, &outcome, &layer)
    }

    fn at_journal(&self, rt: &HostRuntime) -> anyhow::Result<()> {
        let mut entries = vec![in self.heap; NO_ENTRY; self.log_places()]?;
        let mut bookings = self.booking_memory()?;
        let (journal, outcome) = self.over::<Bare<Journal>, Rates2020>(
            Journal::open(&mut bookings),
            DurationRates2020,
            &mut entries,
        )?;
        say(rt, &outcome, &journal)
    }

    fn at_layered(&self, rt: &HostRuntime) -> anyhow::Result<()> {
        let mut entries = vec![in self.heap; NO_ENTRY; self.log_places()]?;
        let mut bookings = self.booking_memory()?;
        let mut journal = Journal::open(&mut bookings);
        let outcome = self.on_journal::<Rates2020>(&mut journal, DurationRates2020, &mut entries)?;
        say(rt, &outcome, &journal)
    }

    fn at_stacked(&self, rt: &HostRuntime) -> anyhow::Result<()> {
        let mut entries = vec![in self.heap; NO_ENTRY; self.log_places()]?;
        let mut table = NetTable::open();
        let outcome = self.on_lent::<NetTable, Surcharge<Surcharge<RateSheet>>>(
            &mut table,
            surcharged_sheet()?,
            &mut entries,
        )?;
        say(rt, &outcome, &table)
    }
}

impl Desk {
    // The day of the desk.
    pub(crate) fn run(self, rt: &HostRuntime, day: Day<'_>) -> anyhow::Result<()> {
        // Kept: each desk is of other types, so no value that could be called chooses one.
        match self {
            Desk::Rates => day.at_rates(rt),
            Desk::Pairs => day.at_pairs(rt),
            Desk::Journal => day.at_journal(rt),
            Desk::Layered => day.at_layered(rt),
            Desk::Stacked => day.at_stacked(rt),
        }
    }
}
