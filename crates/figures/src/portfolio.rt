// What a deposit tells of a book.
use books::table::NetTable;
use deposits::deposit::deposit;
use deposits::records::{ClassMargin, Match, Summary};
use lists::list::List;
use sheets::sheet::Sheet;
use terms::fault::Fault;
use terms::limits::{CLASSES, PAIRS};

// The record of each class, and the summary.
#[derive(Drop)]
pub(crate) struct Told {
    pub(crate) classes: [ClassMargin; CLASSES],
    pub(crate) summary: Summary,
}

// The deposit of a book by the rates of a sheet.
pub(crate) fn deposit_of<S: Sheet>(book: &NetTable, sheet: &S) -> Result<Told, Fault> {
    let mut classes = [ClassMargin::NONE; CLASSES];
    let mut places = [Match::NONE; PAIRS];
    let mut matches = List::over(&mut places);
    let summary = deposit(book, sheet, &mut classes, &mut matches)?;
    Ok(Told { classes, summary })
}
