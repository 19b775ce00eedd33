// A trial layer above any book: its nets are those below plus its trial quantities.
use books::book::Book;
use books::ledger::Ledger;

mod methods;

/// The nets of the layer are kept whole: a trial quantity is what they have above those of the book below.
#[derive(Drop)]
pub struct Trial<B: Book> {
    below: B,
    above: Ledger,
}
