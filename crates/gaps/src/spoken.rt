// A deposit, its exact margin and the gap between them in plain words and zloty.
ghost use Rattle.gaps.specs.Lines.{class_lines, classes_lines, deposit_line, exact_line, gap_lines, held_line, margin_lines, match_line, matches_lines, measure_lines, parts_line, sums_line, sums_words};
ghost use Rattle.std.specs.Fmt.{DisplaysOnOk};
ghost use Rattle.std.specs.Prelude.{Some};

use deposits::records::{ClassMargin, Match, Summary};
use measures::record::Measure;
use measures::units::{Exact, Thousandths};
use std::fmt;
use wording::units::{Amount, Leftover, Money};

// The sums PK and PS of a class, CPN and CPB.
// Kept: replay and gap end the line of the parts in other ways; a type of four amounts, filled in both, is no plainer.
#[derive(Clone, Copy)]
struct Sums<'a>(&'a ClassMargin);

impl fmt::Display for Sums<'_> {
    ghost output = { λ sums. Some (sums_words sums.0.now) };

    fn fmt<W: fmt::Write>(&self, f: &mut fmt::Formatter<W>) -> fmt::Result {
        let bought = self.0.bought.units();
        let sold = self.0.sold.units();
        let pk = Amount(bought);
        let ps = Amount(sold);
        let cpn = Amount(bought.abs_diff(sold));
        let cpb = Amount(bought.saturating_add(sold));
        write!(f, "PK {pk}, PS {ps}, CPN {cpn}, CPB {cpb}")
    }
}

// The sums of a class, by its number, and what is left over of it.
#[derive(Clone, Copy)]
struct SumsLine<'a>(usize, &'a ClassMargin);

impl fmt::Display for SumsLine<'_> {
    ghost output = { λ line. Some (sums_line line.0 line.1.now) };

    fn fmt<W: fmt::Write>(&self, f: &mut fmt::Formatter<W>) -> fmt::Result {
        let number = self.0;
        let sums = Sums(self.1);
        let leftover = Leftover(self.1.leftover);
        write!(f, "Class {number}: {sums}; left over: {leftover}")
    }
}

// The parts of the deposit of a class.
#[derive(Clone, Copy)]
struct PartsLine<'a>(&'a ClassMargin);

impl fmt::Display for PartsLine<'_> {
    ghost output = { λ line. Some (parts_line line.0.now) };

    fn fmt<W: fmt::Write>(&self, f: &mut fmt::Formatter<W>) -> fmt::Result {
        let drr = Money(self.0.drr.grosz());
        let drs = Money(self.0.drs.grosz());
        let dswk = Money(self.0.dswk.grosz());
        let kspk = Money(self.0.kspk.grosz());
        let dolr = Money(self.0.dolr.grosz());
        write!(
            f,
            "  DRR {drr} + DRS {drs} + DSWK {dswk} - KSPK {kspk} = DOLR {dolr}"
        )
    }
}

// Says the two lines of a class if it is held.
fn say_class<W: fmt::Write>(
    f: &mut fmt::Formatter<W>,
    number: usize,
    class: &ClassMargin,
) -> fmt::Result
    ensures { DisplaysOnOk W.write_str_gives f.old result (Some (class_lines number class.now)) f.new }
{
    if !class.held {
        return Ok(());
    }
    let sums = SumsLine(number, class);
    let parts = PartsLine(class);
    writeln!(f, "{sums}")?;
    writeln!(f, "{parts}")
}

// Says each held class.
fn say_classes<W: fmt::Write>(f: &mut fmt::Formatter<W>, classes: &[ClassMargin]) -> fmt::Result
    ensures { DisplaysOnOk W.write_str_gives f.old result (Some (classes_lines 0 classes.now)) f.new }
{
    for (number, class) in classes.iter().enumerate() {
        say_class(f, number, class)?;
    }
    Ok(())
}

// Says what a pair matches.
// Kept: no plainer: wording knows no Match, and a crate for this one line, which replay indents, would stand on deposits.
fn say_match<W: fmt::Write>(f: &mut fmt::Formatter<W>, pair: &Match) -> fmt::Result
    ensures { DisplaysOnOk W.write_str_gives f.old result (Some (match_line pair.now)) f.new }
{
    let first = pair.first;
    let second = pair.second;
    let matched = Amount(pair.matched.units());
    writeln!(f, "Classes {first} and {second}: {matched} matched")
}

// Says what each pair matches.
fn say_matches<W: fmt::Write>(f: &mut fmt::Formatter<W>, matches: &[Match]) -> fmt::Result
    ensures { DisplaysOnOk W.write_str_gives f.old result (Some (matches_lines matches.now)) f.new }
{
    for pair in matches {
        say_match(f, pair)?;
    }
    Ok(())
}

// What is held of a portfolio.
// Kept: C, N and R stand one by one (a rule of the project); a type of them would be made to be printed.
#[derive(Clone, Copy)]
struct HeldLine(Summary);

impl fmt::Display for HeldLine {
    ghost output = { λ line. Some (held_line line.0) };

    fn fmt<W: fmt::Write>(&self, f: &mut fmt::Formatter<W>) -> fmt::Result {
        let classes = self.0.classes;
        let securities = self.0.securities;
        let pairs = self.0.pairs;
        write!(
            f,
            "Held: classes {classes}, securities {securities}, pairs {pairs}. All amounts are in zloty."
        )
    }
}

// The deposit that is told.
#[derive(Clone, Copy)]
struct DepositLine<'a>(&'a Measure);

impl fmt::Display for DepositLine<'_> {
    ghost output = { λ line. Some (deposit_line line.0.now) };

    fn fmt<W: fmt::Write>(&self, f: &mut fmt::Formatter<W>) -> fmt::Result {
        let deposit = Money(self.0.summary.dspan.grosz());
        write!(f, "The deposit told:     {deposit} zloty")
    }
}

// The exact margin, with its sign.
#[derive(Clone, Copy)]
struct ExactLine<'a>(&'a Measure);

impl fmt::Display for ExactLine<'_> {
    ghost output = { λ line. Some (exact_line line.0.now) };

    #[tactic(auto, unfolding(measures::specs::Amounts::signed_exact))]
    fn fmt<W: fmt::Write>(&self, f: &mut fmt::Formatter<W>) -> fmt::Result {
        let amount = Exact(self.0.exact.unsigned_abs());
        if self.0.exact < 0 {
            write!(f, "The exact margin:     -{amount} zloty")
        } else {
            write!(f, "The exact margin:     {amount} zloty")
        }
    }
}

// Says the deposit and the exact margin.
fn say_margins<W: fmt::Write>(f: &mut fmt::Formatter<W>, measure: &Measure) -> fmt::Result
    ensures { DisplaysOnOk W.write_str_gives f.old result (Some (margin_lines measure.now)) f.new }
{
    let deposit = DepositLine(measure);
    let exact = ExactLine(measure);
    writeln!(f, "{deposit}")?;
    writeln!(f, "{exact}")
}

// Says the gap between the two, how large it may be, and what is held.
#[tactic(auto, unfolding(crate::specs::Lines::gap_lines))]
fn say_gap<W: fmt::Write>(f: &mut fmt::Formatter<W>, measure: &Measure) -> fmt::Result
    ensures { DisplaysOnOk W.write_str_gives f.old result (Some (gap_lines measure.now)) f.new }
{
    let gap = Exact(measure.gap);
    let bound = Thousandths(measure.bound);
    let held = HeldLine(measure.summary);
    writeln!(f, "The gap between them: {gap} zloty")?;
    writeln!(f, "Proved to be at most: {bound} zloty")?;
    writeln!(f, "{held}")
}

// Says all that is measured: the deposit and the exact margin, the gap, each held class in zloty, and what each pair matches.
pub(crate) fn say_measure<W: fmt::Write>(
    f: &mut fmt::Formatter<W>,
    measure: &Measure,
    classes: &[ClassMargin],
    matches: &[Match],
) -> fmt::Result
    ensures { DisplaysOnOk W.write_str_gives f.old result (Some (measure_lines measure.now classes.now matches.now)) f.new }
{
    say_margins(f, measure)?;
    say_gap(f, measure)?;
    say_classes(f, classes)?;
    say_matches(f, matches)
}
