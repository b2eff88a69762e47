//! A parameter of a function.

/// A parameter of a function: the label of its type and the number of what that stands for.
#[derive(Clone, Copy, Debug, PartialEq, Eq)]
pub struct Parameter {
    /// The label of its type.
    pub label: u32,
    /// The number of its type; 0 where the label stands for no value.
    pub ty: u32,
}
