// The rates of a class as they are read of a sheet.
ghost use Rattle.std.specs.Prelude.{◌≤◌};
ghost use Rattle.terms.specs.Limits.{whole};

/// Each in 10^-5 of the whole, which none is above.
// Kept: no plainer: a ClassRow may be unlawful before it is judged, and Rates never are; a third type for y, x and dep, which
// both would hold, would be named at each use.
#[derive(Clone, Copy)]
pub struct Rates {
    pub y: u32,
    pub x: u32,
    pub dep: u32,
    pub ghost y_small: { y ≤ whole },
    pub ghost x_small: { x ≤ whole },
    pub ghost dep_small: { dep ≤ whole },
}
