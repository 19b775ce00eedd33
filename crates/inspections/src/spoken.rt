// Frames in plain words.
ghost use Rattle.frames.specs.Bookings.{booking_figures};
ghost use Rattle.frames.specs.Classes.{class_figures};
ghost use Rattle.frames.specs.Deposits.{deposit_figures};
ghost use Rattle.frames.specs.Faults.{fault_figures};
ghost use Rattle.frames.specs.Pairs.{pair_figures};
ghost use Rattle.frames.specs.Securities.{security_figures};
ghost use Rattle.frames.specs.Totals.{total_figures};
ghost use Rattle.inspections.specs.Words.{booking_words, class_words, deposit_words, fault_words, pair_words, security_words, spoken_words, total_words};
ghost use Rattle.inspections.specs.Named.{in_brackets, layer_named, refusal_named};
ghost use Rattle.inspections.specs.Fields.{ReadAs, shown};
ghost use Rattle.std.specs.Fmt.{DisplaysOnOk};
ghost use Rattle.std.specs.Prelude.{◌≡◌, Some};
ghost use Rattle.terms.specs.Numbers.{layer_words};
ghost use Rattle.terms.specs.Refusals.{refusal_words};

use frames::codec::read_digits;
use frames::frame::Frame;
use frames::kinds::{
    BookingFrame, BookingRecord, ClassFrame, ClassRecord, DepositFrame, DepositRecord, FaultFrame,
    FaultRecord, PairFrame, PairRecord, SecurityFrame, SecurityRecord, TotalFrame, TotalRecord,
};
use lines::frame_line::FrameLine;
use lines::part::Fields;
use std::fmt;
use terms::fault::Fault;
use terms::layer::Layer;
use terms::refusal::Refusal;
use wording::units::{Duration, Money, Percent, Price};

/// A record in plain words.
// Kept: the records are of the crate frames, whose Display this crate may not write, so that a type around them prints.
#[derive(Drop)]
pub struct Words<R>(pub R);

impl fmt::Display for Words<ClassRecord> {
    ghost output = { λ words. Some (class_words (class_figures words.0)) };

    fn fmt<W: fmt::Write>(&self, f: &mut fmt::Formatter<W>) -> fmt::Result {
        let class = self.0.class;
        let kind = self.0.kind;
        let y = Percent(self.0.y);
        let x = Percent(self.0.x);
        let dep = Percent(self.0.dep);
        write!(f, "class {class}, {kind}, y {y}, x {x}, dep {dep}")
    }
}

impl fmt::Display for Words<SecurityRecord> {
    ghost output = { λ words. Some (security_words (security_figures words.0)) };

    fn fmt<W: fmt::Write>(&self, f: &mut fmt::Formatter<W>) -> fmt::Result {
        let security = self.0.security;
        let class = self.0.class;
        let price = Price(self.0.price);
        let rate = Price(self.0.rate);
        let duration = Duration(self.0.duration);
        write!(
            f,
            "security {security} of class {class}, price {price}, rate {rate}, duration {duration}"
        )
    }
}

impl fmt::Display for Words<PairRecord> {
    ghost output = { λ words. Some (pair_words (pair_figures words.0)) };

    fn fmt<W: fmt::Write>(&self, f: &mut fmt::Formatter<W>) -> fmt::Result {
        let first = self.0.first;
        let second = self.0.second;
        let crt = Percent(self.0.crt);
        write!(f, "pair of classes {first} and {second}, credit {crt}")
    }
}

impl fmt::Display for Words<BookingRecord> {
    ghost output = { λ words. Some (booking_words (booking_figures words.0)) };

    fn fmt<W: fmt::Write>(&self, f: &mut fmt::Formatter<W>) -> fmt::Result {
        let security = self.0.security;
        let side = self.0.side;
        let quantity = self.0.quantity;
        write!(f, "booking of security {security}, {side} {quantity}")
    }
}

impl fmt::Display for Words<DepositRecord> {
    ghost output = { λ words. Some (deposit_words (deposit_figures words.0)) };

    fn fmt<W: fmt::Write>(&self, f: &mut fmt::Formatter<W>) -> fmt::Result {
        let class = self.0.class;
        let drr = Money(self.0.drr);
        let drs = Money(self.0.drs);
        let dswk = Money(self.0.dswk);
        let kspk = Money(self.0.kspk);
        let dolr = Money(self.0.dolr);
        write!(
            f,
            "deposit of class {class} in zloty: DRR {drr}, DRS {drs}, DSWK {dswk}, KSPK {kspk}, DOLR {dolr}"
        )
    }
}

impl fmt::Display for Words<TotalRecord> {
    ghost output = { λ words. Some (total_words (total_figures words.0)) };

    fn fmt<W: fmt::Write>(&self, f: &mut fmt::Formatter<W>) -> fmt::Result {
        // Kept: C, N and R stand one by one (a rule of the project); a type of them would be made to be printed.
        let classes = self.0.classes;
        let securities = self.0.securities;
        let pairs = self.0.pairs;
        let dspan = Money(self.0.dspan);
        write!(
            f,
            "total: DSPAN {dspan} zloty, held classes {classes}, securities {securities}, pairs {pairs}"
        )
    }
}

// What a number names, shown by its words in brackets; nothing where it names nothing.
#[derive(Clone, Copy)]
struct Named<T>(Option<T>);

impl fmt::Display for Named<Refusal> {
    ghost output = { λ named. Some (in_brackets refusal_words named.0) };

    fn fmt<W: fmt::Write>(&self, f: &mut fmt::Formatter<W>) -> fmt::Result {
        match self.0 {
            Some(refusal) => write!(f, " ({refusal})"),
            None => Ok(()),
        }
    }
}

impl fmt::Display for Named<Layer> {
    ghost output = { λ named. Some (in_brackets layer_words named.0) };

    fn fmt<W: fmt::Write>(&self, f: &mut fmt::Formatter<W>) -> fmt::Result {
        match self.0 {
            Some(layer) => write!(f, " ({layer})"),
            None => Ok(()),
        }
    }
}

#[tactic(auto, using(crate::proofs::Named::refusal_is))]
fn named_refusal(number: u8) -> Named<Refusal>
    ensures { result.0 ≡ refusal_named number }
{
    Named(Refusal::try_from(number).ok())
}

#[tactic(auto, using(crate::proofs::Named::layer_is))]
fn named_layer(number: u8) -> Named<Layer>
    ensures { result.0 ≡ layer_named number }
{
    Named(Layer::try_from(number).ok())
}

impl fmt::Display for Words<FaultRecord> {
    ghost output = { λ words. Some (fault_words (fault_figures words.0)) };

    fn fmt<W: fmt::Write>(&self, f: &mut fmt::Formatter<W>) -> fmt::Result {
        let number = self.0.number;
        let refusal = named_refusal(number);
        let layer_number = self.0.layer;
        let layer = named_layer(layer_number);
        let line = self.0.line;
        let place = self.0.place;
        write!(
            f,
            "fault: refusal {number}{refusal}, layer {layer_number}{layer}, line {line}, place {place}"
        )
    }
}

/// A frame of a text.
#[derive(Clone, Copy)]
pub struct Spoken<'a>(pub FrameLine<'a>);

// What the fields of a frame of one kind say.
fn words_of<F: Frame>(part: Fields<'_>) -> Result<Words<F::Record>, Fault>
    ensures { ReadAs F.kind (λ words. F.figures words.0) part.entry.digits.text.now result }
{
    Ok(Words(read_digits::<F>(part.digits)?))
}

fn say<T: fmt::Display + Drop, W: fmt::Write>(
    words: Result<T, Fault>,
    f: &mut fmt::Formatter<W>,
) -> fmt::Result
    ensures { DisplaysOnOk W.write_str_gives f.old result (shown T.output words) f.new }
{
    match words {
        Ok(words) => write!(f, "{words}"),
        Err(_) => f.write_str("not a frame"),
    }
}

impl fmt::Display for Spoken<'_> {
    ghost output = { λ spoken. Some (spoken_words spoken.0) };

    #[tactic(auto, using(crate::proofs::Saying::frame_said), unfolding(crate::specs::Words::frame_words))]
    fn fmt<W: fmt::Write>(&self, f: &mut fmt::Formatter<W>) -> fmt::Result {
        match self.0 {
            FrameLine::Class(part) => say(words_of::<ClassFrame>(part), f),
            FrameLine::Security(part) => say(words_of::<SecurityFrame>(part), f),
            FrameLine::Pair(part) => say(words_of::<PairFrame>(part), f),
            FrameLine::Booking(part) => say(words_of::<BookingFrame>(part), f),
            FrameLine::Deposit(part) => say(words_of::<DepositFrame>(part), f),
            FrameLine::Total(part) => say(words_of::<TotalFrame>(part), f),
            FrameLine::Fault(part) => say(words_of::<FaultFrame>(part), f),
        }
    }
}
