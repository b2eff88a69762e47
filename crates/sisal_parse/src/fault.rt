//! Why tokens have no tree.
ghost use Rattle.std.specs.Prelude.{◌≡◌};
ghost use Rattle.sisal_parse.specs.declared.fault.ParseFault.TheVariants.{NoMemory};

use flow_value::NoMemory;
use thiserror::Error;

/// Why tokens have no tree.
#[derive(Clone, Copy, Debug, PartialEq, Eq, Error)]
pub enum ParseFault {
    /// No unit begins with the tokens up to this one.
    #[error("no unit goes on with token {token}, in line {line}")]
    Syntax {
        /// The number of the token, from 1; one more than there are tokens where the text ends early.
        token: u32,
        /// Its line; that of the last token where the text ends early, 1 where there is no token.
        line: u32,
    },
    /// The tokens are a unit with an expression of a depth above 200, which begins in this line.
    #[error("the expression in line {0} nests too deep")]
    TooDeep(u32),
    /// Want of memory.
    #[error("no memory")]
    NoMemory,
}

impl From<NoMemory> for ParseFault {
    ghost from_gives = { λ _ e. e ≡ NoMemory };

    fn from(_e: NoMemory) -> ParseFault {
        ParseFault::NoMemory
    }
}
