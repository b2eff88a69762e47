//! The commands.
ghost use Rattle.std.specs.Prelude.{◌≡◌};
ghost use Rattle.run_words.specs.Reading.{keyword_named};

use flow_value::{Name, Text, Texts};

/// The first word.
#[derive(Clone, Copy, Debug, PartialEq, Eq)]
pub enum Keyword {
    /// `run`
    Run,
    /// `compile`
    Compile,
    /// `if1`
    If1,
    /// `mean`
    Mean,
    /// `gen`
    Gen,
    /// `link`
    Link,
    /// `verify`
    Verify,
    /// `again`
    Again,
    /// `--help`
    Help,
    /// `--version`
    Version,
}

/// The command that a word names.
pub fn keyword_named(word: &str) -> Option<Keyword>
    ensures { result ≡ keyword_named word.now }
{
    if word == "run" {
        Some(Keyword::Run)
    } else if word == "compile" {
        Some(Keyword::Compile)
    } else if word == "if1" {
        Some(Keyword::If1)
    } else if word == "mean" {
        Some(Keyword::Mean)
    } else if word == "gen" {
        Some(Keyword::Gen)
    } else if word == "link" {
        Some(Keyword::Link)
    } else if word == "verify" {
        Some(Keyword::Verify)
    } else if word == "again" {
        Some(Keyword::Again)
    } else if word == "--help" {
        Some(Keyword::Help)
    } else if word == "--version" {
        Some(Keyword::Version)
    } else {
        None
    }
}

/// What the words ask for.
#[derive(Drop)]
pub enum Command {
    /// `run`: run a program.
    Run(RunSet),
    /// `compile`: print the graphs of a SISAL text.
    Compile(CompileSet),
    /// `if1`: check an IF1 text and print it in canonical form.
    If1,
    /// `mean`: evaluate a SISAL text by the meaning of its source.
    Mean(MeanSet),
    /// `gen`: print a generated program of this size, from 1 to 500.
    Gen(u32),
    /// `link`: join the parts of an IF1 text.
    Link,
    /// `verify`: check a trace.
    Verify(MeanSet),
    /// `again`: run a program, change an argument, and fire again what depends on it.
    Again(AgainSet),
    /// `--help`: print how to call the program.
    Help,
    /// `--version`: print the version.
    Version,
}

/// What `run` is to do.
#[derive(Drop)]
pub struct RunSet {
    /// Whether the text is IF1.
    pub if1: bool,
    /// The name of the entry function, as the word has it.
    pub entry: Name,
    /// The number of workers, from 1 to 16.
    pub workers: u32,
    /// The most firings, from 1 to 1,099,511,627,776.
    pub limit: u64,
    /// Which of the ready nodes come first: 0 for the first of them, or the seed of a choice.
    pub order: u32,
    /// Whether a line of totals follows the results.
    pub stats: bool,
    /// Whether the graphs are optimised first.
    pub opt: bool,
    /// Whether the graphs and the trace of the run are printed in place of the results.
    pub trace: bool,
    /// The values of the entry's parameters, as the words have them.
    pub values: Texts,
}

/// What `compile` is to do: print IF1, or one of `dot`, `why` and `code` in its place.
#[derive(Clone, Copy, Debug, PartialEq, Eq)]
pub struct CompileSet {
    /// Whether the graphs are optimised first.
    pub opt: bool,
    /// Whether they are printed for drawing.
    pub dot: bool,
    /// Whether what is copied is printed, and why.
    pub why: bool,
    /// Whether the code of a run is printed.
    pub code: bool,
}

/// What `mean` and `verify` are to do.
#[derive(Drop)]
pub struct MeanSet {
    /// The name of the entry function, as the word has it.
    pub entry: Name,
    /// The most steps, from 1 to 1,099,511,627,776.
    pub limit: u64,
    /// The values of the entry's parameters, as the words have them.
    pub values: Texts,
}

/// What `again` is to do.
#[derive(Drop)]
pub struct AgainSet {
    /// Whether the text is IF1.
    pub if1: bool,
    /// The name of the entry function, as the word has it.
    pub entry: Name,
    /// The most firings, from 1 to 1,099,511,627,776.
    pub limit: u64,
    /// The number of the argument that is changed, from 1 to 65,535.
    pub place: u32,
    /// Its new value, as the word has it.
    pub value: Text,
    /// The values of the entry's parameters before the change, as the words have them.
    pub values: Texts,
}
