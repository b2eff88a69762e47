//! Reads the words of the command line.
#![tactic(auto)]

mod command;
mod fault;
mod number;
mod options;
mod reading;

pub use command::{AgainSet, Command, CompileSet, Keyword, MeanSet, RunSet};
pub use fault::WordFault;
pub use options::{Flag, Named, Options, Runner, Setting};
pub use reading::{read_words, words_have_one_meaning};
