//! The tokens of a SISAL text, taken by longest match.
#![tactic(auto)]

mod fault;
mod head;
mod laws;
mod lexer;
mod names;
mod quotes;
mod rows;
mod signs;
mod token;
mod words;

pub use fault::LexFault;
pub use flow_value::{Held, NoMemory, Seq, Text};
pub use laws::tokens_are_longest;
pub use lexer::lex;
pub use token::{Kind, Sign, Token, Tokens, Word};
