//! Why a program has no labels.

/// Why a program has no labels.
#[derive(Clone, Copy, Debug, PartialEq, Eq)]
pub enum TypesFault {
    /// The header or body of the function of this line needs the 65,536th type.
    TooMany(u32),
    /// Want of memory.
    NoMemory,
}
