// Reading a sheet of any kind.
ghost use Rattle.sheets.specs.Readings.{figures_of, rates_in, with_kind};
ghost use Rattle.std.specs.Prelude.{◌≡◌, is_some};

use crate::rates::Rates;
use crate::sheet::Sheet;
use rules::position::PricedSecurity;

/// The rates of a class, 0 where it has no row.
// Kept: the match knows that the row is lawful; a closure of `map_or` would have to require it, and `From<ClassRow>` may not.
pub fn rates_of<S: Sheet>(sheet: &S, class: u16) -> Rates
    ensures { figures_of result ≡ rates_in ((S.Sheet.rows sheet.now).classes class) }
{
    match sheet.class(class) {
        Some(row) => Rates {
            y: row.y,
            x: row.x,
            dep: row.dep,
        },
        None => Rates { y: 0, x: 0, dep: 0 },
    }
}

/// The row of a security, and the kind of its class. Where there is the one, there is the other.
pub fn priced_security<S: Sheet>(sheet: &S, security: u16) -> Option<PricedSecurity>
    ensures row { result ≡ with_kind (S.Sheet.rows sheet.now) ((S.Sheet.rows sheet.now).securities security) }
    ensures listed { is_some result ≡ is_some ((S.Sheet.rows sheet.now).securities security) }
{
    let row = sheet.security(security)?;
    let class = sheet.class(row.class)?;
    Some(PricedSecurity {
        row,
        kind: class.kind,
    })
}
