//! What is wrong with the words.
ghost use Rattle.std.specs.Prelude.{◌≡◌};
ghost use Rattle.run_words.specs.declared.fault.WordFault.TheVariants.{NoMemory as no_memory};

use flow_value::NoMemory;

/// The first fault of the words from the left. Words count from 1.
#[derive(Clone, Copy, Debug, PartialEq, Eq)]
pub enum WordFault {
    /// The words end where a command, the number of `gen`, the value of an option, or the place or the new value of `again` is
    /// wanted.
    Missing,
    /// This word is no command, is none of the command's options, or is one too many.
    Unknown(usize),
    /// The option that this word names was given before.
    Repeated(usize),
    /// This word stands for a number, and is empty or has a byte other than a digit.
    NotANumber(usize),
    /// The number of this word is outside its range.
    OutOfRange(usize),
    /// Want of memory.
    NoMemory,
}

impl From<NoMemory> for WordFault {
    ghost from_gives = { λ _ e. e ≡ no_memory };

    fn from(_e: NoMemory) -> WordFault {
        WordFault::NoMemory
    }
}
