// The additions of a surcharge.
use rules::rows::Addition;
use terms::limits::CLASSES;

mod methods;

// One addition a class.
#[derive(Drop)]
pub(crate) struct AdditionTable {
    classes: [Addition; CLASSES],
}
