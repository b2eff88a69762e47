//! What a name stands for.

/// A value: its level, from 0 for the first parameter of the function, and its type.
#[derive(Clone, Copy)]
pub struct Value {
    /// How many values came into force before it and are in force.
    pub level: u32,
    /// The type's number in the table of the program.
    pub ty: usize,
}

/// What a name stands for.
#[derive(Clone, Copy)]
pub enum Meaning {
    /// A value.
    At(Value),
    /// Nothing yet: a loop name that the turn defines later.
    Later,
}
