//! Why a text is no value of a type.
ghost use Rattle.std.specs.Prelude.{◌≡◌};
ghost use Rattle.value_text.specs.declared.fault.ValueFault.TheVariants as faults;

use flow_value::NoMemory;

/// Why a text is no value of a type.
#[derive(Clone, Copy, Debug, PartialEq, Eq)]
pub enum ValueFault {
    /// It is no value text: the first byte, from 0, at which no value text goes on, or the text's
    /// length.
    BadSpelling(usize),
    /// It is a value text within the limits and not of the type: the first byte of the leftmost
    /// part whose own form is not that of its type.
    WrongShape(usize),
    /// It is a value text past a limit: an integer past 64 signed bits, array bounds or a size past
    /// the limits, or a nesting past 64.
    TooLarge,
    /// Want of memory.
    NoMemory,
}

impl From<NoMemory> for ValueFault {
    ghost from_gives = { λ _ e. e ≡ faults.NoMemory };

    fn from(_e: NoMemory) -> ValueFault {
        ValueFault::NoMemory
    }
}
