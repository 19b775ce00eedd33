// A sheet with pairs.
use rules::rows::{Addition, ClassRow, PairRow, SecurityRow};
use sheets::draft::Draft;
use sheets::rate_sheet::RateSheet;
use surcharges::setting::Setting;
use surcharges::surcharge::Surcharge;
use terms::choice::ClassKind;
use terms::fault::Fault;
use terms::limits::DURATION_ONE;

// A class of shares.
fn shares(y: u32, x: u32) -> ClassRow {
    ClassRow {
        kind: ClassKind::Liquidity,
        y,
        x,
        dep: 0,
    }
}

// A share at a price in zloty.
fn share(class: u16, price: u32) -> SecurityRow {
    SecurityRow {
        class,
        price,
        rate: 10_000,
        duration: DURATION_ONE,
    }
}

// Three classes of shares, the first paired with each of the others.
pub(crate) fn pairs_sheet() -> Result<RateSheet, Fault> {
    let mut draft = Draft::new();
    draft.add_class(0, shares(10_000, 2_000))?;
    draft.add_class(1, shares(8_000, 1_000))?;
    draft.add_class(2, shares(8_000, 1_000))?;
    draft.add_security(0, share(0, 500_000))?;
    draft.add_security(1, share(1, 300_000))?;
    draft.add_security(2, share(2, 400_000))?;
    draft.add_security(3, share(2, 1_000_001))?;
    draft.add_pair(PairRow {
        first: 0,
        second: 1,
        crt: 5_000,
    })?;
    draft.add_pair(PairRow {
        first: 0,
        second: 2,
        crt: 5_000,
    })?;
    Ok(draft.put_in_force())
}

// The same under a surcharge of 1% on y of class 0.
pub(crate) fn surcharged_sheet() -> Result<Surcharge<RateSheet>, Fault> {
    let mut sheet = Surcharge::open(pairs_sheet()?);
    sheet.set(Setting {
        class: 0,
        addition: Addition { y: 1_000, x: 0 },
    })?;
    Ok(sheet)
}
