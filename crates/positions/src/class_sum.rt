// What a class sums to.
ghost use Rattle.std.specs.Prelude.{◌≡◌};

use terms::money::Zloty;

/// Of one class: its bought and its sold sum, and how many of its securities are held.
#[derive(Clone, Copy)]
pub struct ClassSum {
    pub bought: Zloty,
    pub sold: Zloty,
    pub held: u16,
}

impl ClassSum {
    /// Of no position.
    // Kept: no plainer: it is a constant, of which an array is made; a Default would stand beside it.
    pub const NONE: ClassSum = ClassSum {
        bought: Zloty::ZERO,
        sold: Zloty::ZERO,
        held: 0,
    };

    /// The bought and the sold sum, PK and PS.
    // Kept: a rule of the project: a class is summed up as the pair (PK, PS).
    pub fn pair(&self) -> (Zloty, Zloty)
        ensures bought { result.0 ≡ self.now.bought }
        ensures sold { result.1 ≡ self.now.sold }
    {
        (self.bought, self.sold)
    }
}
