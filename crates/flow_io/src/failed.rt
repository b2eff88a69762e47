//! The answer of a source or a sink that failed.
use std::error::Error;
use std::fmt;

/// A read or a write failed. The count of faults says how often that was.
#[derive(Clone, Copy, Debug, PartialEq, Eq)]
pub struct Failed;

impl fmt::Display for Failed {
    fn fmt<W: fmt::Write>(&self, f: &mut fmt::Formatter<W>) -> fmt::Result {
        write!(f, "the read or write failed")
    }
}

impl Error for Failed {}
