// Why the figures end before the last.
use std::{fmt, io};
use terms::fault::Fault;

// A write that failed, a call that was refused, a bond that the sheet has no row of, or a position that has no value.
#[derive(Drop)]
pub(crate) enum Failed {
    Write(io::Error),
    Refused(Fault),
    NoBond,
    NoValue,
}

impl From<io::Error> for Failed {
    fn from(error: io::Error) -> Failed {
        Failed::Write(error)
    }
}

impl From<Fault> for Failed {
    fn from(fault: Fault) -> Failed {
        Failed::Refused(fault)
    }
}

// What a program says of the error that ends it: of a failed write all that the system tells.
impl fmt::Debug for Failed {
    fn fmt<W: fmt::Write>(&self, f: &mut fmt::Formatter<W>) -> fmt::Result {
        match self {
            Failed::Write(error) => error.fmt(f),
            Failed::Refused(fault) => write!(f, "{fault}"),
            Failed::NoBond => f.write_str("the sheet has no such bond"),
            Failed::NoValue => f.write_str("A is too large"),
        }
    }
}
