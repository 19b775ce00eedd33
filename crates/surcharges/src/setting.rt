// What is asked of a surcharge.
use rules::rows::Addition;

/// A new addition to the y and the x of one class.
#[derive(Clone, Copy)]
pub struct Setting {
    pub class: u16,
    pub addition: Addition,
}
