//! How many places the generators of a loop have.
use flow_value::Cause;

/// How many places generators have.
#[derive(Clone, Copy, Debug, PartialEq, Eq)]
pub enum Places {
    /// So many.
    Count(usize),
    /// None: an error with this cause.
    Failed(Cause),
}
