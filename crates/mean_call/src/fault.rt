//! Why a program gives no values.
ghost use Rattle.std.specs.Prelude.{◌≡◌};
ghost use Rattle.mean_call.specs.declared.fault.Refusal.TheVariants as refusal;

use flow_value::{Name, NoMemory};
use std::alloc::AllocError;
use value_text::ValueFault;

/// Why the entry or an argument is refused.
#[derive(Clone, Copy, Debug, PartialEq, Eq)]
pub enum ArgumentFault {
    /// No function after `define` has the entry's name.
    Entry,
    /// There are not as many words as parameters.
    Count {
        /// How many parameters the function has.
        wanted: usize,
        /// How many words there are.
        given: usize,
    },
    /// A word is no value of its parameter's type.
    Value {
        /// The number of the word, from 1.
        argument: usize,
        /// What is wrong with it.
        fault: ValueFault,
    },
}

/// Why a program gives no values.
#[derive(Drop)]
pub enum Refusal {
    /// A function stands in another text: the first one's name.
    Unlinked(Name),
    /// The entry or an argument is refused.
    Argument(ArgumentFault),
    /// No values come within the limit of steps.
    TurnLimit,
    /// Want of memory.
    NoMemory,
}

impl From<AllocError> for Refusal {
    ghost from_gives = { λ _ r. r ≡ refusal.NoMemory };

    fn from(_e: AllocError) -> Refusal {
        Refusal::NoMemory
    }
}

impl From<NoMemory> for Refusal {
    ghost from_gives = { λ _ r. r ≡ refusal.NoMemory };

    fn from(_e: NoMemory) -> Refusal {
        Refusal::NoMemory
    }
}
