// What each security of a portfolio is, each held one valued once.
ghost use Rattle.positions.specs.Questions.{held_refusal};
ghost use Rattle.positions.specs.Values.{Values, side_of_lem, valuation_of};
ghost use Rattle.terms.specs.Refusals.{answer_at};
ghost use Rattle.std.specs.Prelude.{◌≡◌};

use crate::position::{Position, Valuation};
use books::book::Positions;
use sheets::reading::priced_security;
use sheets::sheet::Sheet;
use terms::choice::Side;
use terms::fault::Fault;
use terms::limits::SECURITIES;
use terms::refusal::Refusal;

// The side of a net.
// Kept: a side is not made of any number, but of a net, so that a `From` of an integer would say too much.
fn side_of(net: i64) -> Side
    ensures { result ≡ side_of_lem net }
{
    if net < 0 { Side::Sold } else { Side::Bought }
}

// What a security is of which this net is held.
fn valuation<S: Sheet>(sheet: &S, security: u16, net: i64) -> Valuation
    ensures { result ≡ valuation_of (S.Sheet.rows sheet.now) (λ _. net) security }
{
    if net == 0 {
        return Valuation::Flat;
    }
    let Some(priced) = priced_security(sheet, security) else {
        return Valuation::Refused(Refusal::SecurityWithoutRow);
    };
    match priced.valuation(net) {
        Some((_, value)) => Valuation::Valued(Position {
            class: priced.row.class,
            side: side_of(net),
            value,
        }),
        None => Valuation::Refused(Refusal::AmountTooLarge),
    }
}

// The same where no question refuses it.
fn unrefused<S: Sheet>(sheet: &S, security: u16, net: i64) -> Result<Valuation, Fault>
    ensures { result ≡ answer_at security (valuation_of (S.Sheet.rows sheet.now) (λ _. net) security) (held_refusal (S.Sheet.rows sheet.now) (λ _. net) security) }
{
    match valuation(sheet, security, net) {
        Valuation::Refused(refusal) => Err(refusal.at(security)),
        valuation => Ok(valuation),
    }
}

// What each security of a portfolio is, or the refusal of the first held security that has one.
pub(crate) fn valuations<P: Positions, S: Sheet>(
    book: &P,
    sheet: &S,
) -> Result<[Valuation; SECURITIES], Fault>
    ensures { Values (S.Sheet.rows sheet.now) (P.Positions.nets book.now) result }
{
    let nets = book.all_nets();
    let mut all = [Valuation::Flat; SECURITIES];
    for (security, place) in all.iter_mut().enumerate() {
        *place = unrefused(sheet, security as u16, nets[security])?;
    }
    Ok(all)
}
