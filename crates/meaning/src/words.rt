//! What a test says.
use flow_value::Cause;

/// What a test says.
#[derive(Clone, Copy, Debug, PartialEq, Eq)]
pub enum Test {
    /// It holds.
    Yes,
    /// It does not hold.
    No,
    /// It is an error with this cause.
    Failed(Cause),
}
