//! Why a text has no tokens.
ghost use Rattle.std.specs.Prelude.{◌≡◌};
ghost use Rattle.sisal_lex.specs.declared.fault.LexFault.TheVariants.{NoMemory};

use flow_value::NoMemory;
use thiserror::Error;

/// Why a text has no tokens; each number is a line, from 1.
#[derive(Clone, Copy, Debug, PartialEq, Eq, Error)]
pub enum LexFault {
    /// A byte outside comments and quotes with which no token begins.
    #[error("no token begins with the byte in line {0}")]
    BadByte(u32),
    /// A number above 9223372036854775807.
    #[error("the number in line {0} is too large")]
    NumberTooWide(u32),
    /// A character or text that its line does not close, or that has an item that is none.
    #[error("a character or text in line {0} is not closed or has a wrong item")]
    OpenText(u32),
    /// A text of more than 4,194,304 bytes.
    #[error("the text is too long")]
    TooLong,
    /// Want of memory.
    #[error("no memory")]
    NoMemory,
}

impl From<NoMemory> for LexFault {
    ghost from_gives = { λ _ e. e ≡ NoMemory };

    fn from(_e: NoMemory) -> LexFault {
        LexFault::NoMemory
    }
}
