// What a deposit tells, in plain words and zloty.
ghost use Rattle.replay.specs.Words.{class_lines, classes_lines, match_line, parts_line, place_lines, sums_line, telling_lines, total_line};
ghost use Rattle.std.specs.Prelude.{Some, flat_map};

use deposits::records::{ClassMargin, Match, Summary};
use histories::telling::Telling;
use std::fmt;
use wording::units::{Amount, Leftover, Money};

// DSPAN, and what is held.
// Kept: the summary is DSPAN, C, N and R (a rule of the project); a type of its three counts would be made to be printed.
#[derive(Clone, Copy)]
struct TotalLine(Summary);

impl fmt::Display for TotalLine {
    ghost output = { λ line. Some (total_line line.0) };

    fn fmt<W: fmt::Write>(&self, f: &mut fmt::Formatter<W>) -> fmt::Result {
        let dspan = Money(self.0.dspan.grosz());
        let classes = self.0.classes;
        let securities = self.0.securities;
        let pairs = self.0.pairs;
        write!(
            f,
            "  {dspan} zloty (held: classes {classes}, securities {securities}, pairs {pairs})"
        )
    }
}

// The sums PK and PS of a class, by its number, and what is left over of it.
// Kept: replay and gap end the line of the parts in other ways; a type of four amounts, filled in both, is no plainer.
#[derive(Clone, Copy)]
struct SumsLine<'a>(usize, &'a ClassMargin);

impl fmt::Display for SumsLine<'_> {
    ghost output = { λ line. Some (sums_line line.0 line.1.now) };

    fn fmt<W: fmt::Write>(&self, f: &mut fmt::Formatter<W>) -> fmt::Result {
        let number = self.0;
        let bought = Amount(self.1.bought.units());
        let sold = Amount(self.1.sold.units());
        let leftover = Leftover(self.1.leftover);
        write!(
            f,
            "  class {number}: {bought} bought, {sold} sold; left over: {leftover}"
        )
    }
}

// The parts of the deposit of a class.
#[derive(Clone, Copy)]
struct PartsLine<'a>(&'a ClassMargin);

impl fmt::Display for PartsLine<'_> {
    ghost output = { λ line. Some (parts_line line.0.now) };

    fn fmt<W: fmt::Write>(&self, f: &mut fmt::Formatter<W>) -> fmt::Result {
        let drr = Money(self.0.drr.grosz());
        let drs = Money(self.0.drs.grosz());
        let dswk = Money(self.0.dswk.grosz());
        let kspk = Money(self.0.kspk.grosz());
        let dolr = Money(self.0.dolr.grosz());
        write!(
            f,
            "    DRR {drr} + DRS {drs} + DSWK {dswk} - KSPK {kspk} = {dolr} zloty"
        )
    }
}

// The two lines of a class, if it is held.
#[derive(Clone, Copy)]
struct ClassLines<'a>(usize, &'a ClassMargin);

impl fmt::Display for ClassLines<'_> {
    ghost output = { λ lines. Some (class_lines lines.0 lines.1.now) };

    #[tactic(auto, unfolding(crate::specs::Words::class_lines))]
    fn fmt<W: fmt::Write>(&self, f: &mut fmt::Formatter<W>) -> fmt::Result {
        if !self.1.held {
            return Ok(());
        }
        let sums = SumsLine(self.0, self.1);
        let parts = PartsLine(self.1);
        writeln!(f, "{sums}")?;
        writeln!(f, "{parts}")
    }
}

// The lines of all classes.
#[derive(Clone, Copy)]
struct ClassesLines<'a>(&'a [ClassMargin]);

impl fmt::Display for ClassesLines<'_> {
    ghost output = { λ lines. Some (classes_lines 0 lines.0.now) };

    fn fmt<W: fmt::Write>(&self, f: &mut fmt::Formatter<W>) -> fmt::Result {
        for (number, class) in self.0.iter().enumerate() {
            ClassLines(number, class).fmt(f)?;
        }
        Ok(())
    }
}

// What a pair matches.
// Kept: no plainer: wording knows no Match, and a crate for this one line, which gap does not indent, would stand on deposits.
#[derive(Clone, Copy)]
struct MatchLine<'a>(&'a Match);

impl fmt::Display for MatchLine<'_> {
    ghost output = { λ line. Some (match_line line.0.now) };

    fn fmt<W: fmt::Write>(&self, f: &mut fmt::Formatter<W>) -> fmt::Result {
        let first = self.0.first;
        let second = self.0.second;
        let matched = Amount(self.0.matched.units());
        write!(f, "  classes {first} and {second}: {matched} matched")
    }
}

// The line of a match, if there is one.
#[derive(Clone, Copy)]
struct PlaceLines<'a>(&'a Option<Match>);

impl fmt::Display for PlaceLines<'_> {
    ghost output = { λ lines. Some (place_lines lines.0.now) };

    #[tactic(auto, unfolding(crate::specs::Words::place_lines))]
    fn fmt<W: fmt::Write>(&self, f: &mut fmt::Formatter<W>) -> fmt::Result {
        match self.0 {
            Some(pair) => {
                let line = MatchLine(pair);
                writeln!(f, "{line}")
            }
            None => Ok(()),
        }
    }
}

// The lines of all matches.
#[derive(Clone, Copy)]
struct PlacesLines<'a>(&'a [Option<Match>]);

impl fmt::Display for PlacesLines<'_> {
    ghost output = { λ lines. Some (flat_map place_lines lines.0.now) };

    fn fmt<W: fmt::Write>(&self, f: &mut fmt::Formatter<W>) -> fmt::Result {
        for place in self.0 {
            PlaceLines(place).fmt(f)?;
        }
        Ok(())
    }
}

// What a deposit tells: its total, each class that is held, and what each pair matches.
#[derive(Clone, Copy)]
pub(crate) struct TellingLines<'a>(pub(crate) &'a Telling);

impl fmt::Display for TellingLines<'_> {
    ghost output = { λ lines. Some (telling_lines lines.0.now) };

    fn fmt<W: fmt::Write>(&self, f: &mut fmt::Formatter<W>) -> fmt::Result {
        let total = TotalLine(self.0.summary);
        let classes = ClassesLines(&self.0.classes);
        let matches = PlacesLines(&self.0.matches);
        write!(f, "{total}\n{classes}{matches}")
    }
}
