//! Reads the words from left to right.
ghost use Rattle.std.specs.Prelude.{◌≡◌, ◌≢◌, ◌⊎◌, ℕ, List, IfOk, IfErr, unwrap_or, codes, Ok, Err};
ghost use Rattle.run_words.specs.Commands.{again_set, begins_with_dash, bytes_of, compile_set, mean_set, run_set};
ghost use Rattle.run_words.specs.Reading.{Gives, ended, reads_alone, reads_change, reads_gen, reads_runner, reads_words};
ghost use Rattle.run_words.specs.Words.{IsCommand, HasFault};
ghost use Rattle.run_words.specs.declared.fault.WordFault.TheVariants.{NoMemory as no_memory};
ghost use Rattle.run_words.specs.declared.fault.WordFault.{WordFault};
ghost use Rattle.run_words.specs.declared.command.Command.{Command};

use crate::command::{AgainSet, Command, CompileSet, Keyword, MeanSet, RunSet, keyword_named};
use crate::fault::WordFault;
use crate::number::number_in;
use crate::options::{Named, Options, Runner};
use flow_value::{Name, NoMemory, Text, Texts};
use std::alloc::Global;

/// The entry function where no other is named.
const MAIN: &[u8] = b"main";

/// The limit where no other is given.
const LIMIT: u64 = 10000000;

/// The command that the words after the program's name are, or their first fault from the left.
pub fn read_words(alloc: Global, words: &[String]) -> Result<Command, WordFault>
    ensures command { IfOk result (λ found. IsCommand (bytes_of words.now) found) }
    ensures fault { IfErr result (λ f. f ≢ no_memory → HasFault (bytes_of words.now) f) }
    // Words that are a command are read as it, and others give their first fault, unless memory runs out.
    ensures only_command { (found : Command) → IsCommand (bytes_of words.now) found → Gives result (Ok found) }
    ensures only_fault { (f : WordFault) → HasFault (bytes_of words.now) f → Gives result (Err f) }
{
    read(alloc, words)
}

/// Words have one meaning: each list of them is one command or has one first fault.
pub fn words_have_one_meaning()
    ensures some { (words : List (List ℕ)) → ((found : Command) × IsCommand words found) ⊎ ((f : WordFault) × HasFault words f) }
    ensures one_command { (words : List (List ℕ)) (a b : Command) → IsCommand words a → IsCommand words b → a ≡ b }
    ensures one_fault { (words : List (List ℕ)) (a b : WordFault) → HasFault words a → HasFault words b → a ≡ b }
    ensures not_both { (words : List (List ℕ)) (found : Command) (f : WordFault) → IsCommand words found → HasFault words f → ⊥ }
{}

fn read(alloc: Global, words: &[String]) -> Result<Command, WordFault>
    ensures { Gives result (reads_words (bytes_of words.now)) }
{
    let Some((word, later)) = words.split_first() else {
        return Err(WordFault::Missing);
    };
    match keyword_named(word.as_str()) {
        None => Err(WordFault::Unknown(1)),
        Some(Keyword::Run) => read_options(alloc, Runner::Run, later),
        Some(Keyword::Mean) => read_options(alloc, Runner::Mean, later),
        Some(Keyword::Compile) => read_options(alloc, Runner::Compile, later),
        Some(Keyword::Verify) => read_options(alloc, Runner::Verify, later),
        Some(Keyword::Again) => read_options(alloc, Runner::Again, later),
        Some(Keyword::Gen) => read_gen(later),
        Some(Keyword::If1) => alone(Command::If1, later),
        Some(Keyword::Link) => alone(Command::Link, later),
        Some(Keyword::Help) => alone(Command::Help, later),
        Some(Keyword::Version) => alone(Command::Version, later),
    }
}

/// A command that takes no further word.
fn alone(command: Command, later: &[String]) -> Result<Command, WordFault>
    ensures { Gives result (reads_alone command (bytes_of later.now)) }
{
    if later.is_empty() {
        Ok(command)
    } else {
        Err(WordFault::Unknown(2))
    }
}

/// `gen` with its number.
fn read_gen(later: &[String]) -> Result<Command, WordFault>
    ensures { Gives result (reads_gen (bytes_of later.now)) }
{
    let Some((word, more)) = later.split_first() else {
        return Err(WordFault::Missing);
    };
    let size = number_in(word.as_str(), 2, 1, 500)? as u32;
    if more.is_empty() {
        Ok(Command::Gen(size))
    } else {
        Err(WordFault::Unknown(3))
    }
}

fn run_set(alloc: Global, options: Options, values: Texts) -> Result<RunSet, NoMemory>
    ensures { IfOk result (λ set. set ≡ run_set options values) }
{
    Ok(RunSet {
        if1: options.if1,
        entry: entry_or_main(alloc, options.entry)?,
        workers: options.workers.unwrap_or(1),
        limit: options.limit.unwrap_or(LIMIT),
        order: options.order.unwrap_or(0),
        stats: options.stats,
        opt: options.opt,
        trace: options.trace,
        values,
    })
}

fn mean_set(alloc: Global, options: Options, values: Texts) -> Result<MeanSet, NoMemory>
    ensures { IfOk result (λ set. set ≡ mean_set options values) }
{
    Ok(MeanSet {
        entry: entry_or_main(alloc, options.entry)?,
        limit: options.limit.unwrap_or(LIMIT),
        values,
    })
}

fn compile_set(options: &Options) -> CompileSet
    ensures { result ≡ compile_set options.now }
{
    CompileSet {
        opt: options.opt,
        dot: options.dot,
        why: options.why,
        code: options.code,
    }
}

fn again_set(
    alloc: Global,
    options: Options,
    place: u32,
    value: Text,
    values: Texts,
) -> Result<AgainSet, NoMemory>
    ensures { IfOk result (λ set. set ≡ again_set options place value values) }
{
    Ok(AgainSet {
        if1: options.if1,
        entry: entry_or_main(alloc, options.entry)?,
        limit: options.limit.unwrap_or(LIMIT),
        place,
        value,
        values,
    })
}

fn entry_or_main(alloc: Global, entry: Option<Name>) -> Result<Name, NoMemory>
    ensures { IfOk result (λ name. name ≡ unwrap_or entry (codes "main")) }
{
    match entry {
        Some(name) => Ok(name),
        None => Name::from_slice(alloc, MAIN),
    }
}

/// A command with its options and values. The first of the words is word 2.
fn read_options(alloc: Global, runner: Runner, words: &[String]) -> Result<Command, WordFault>
    ensures { Gives result (reads_runner runner (bytes_of words.now)) }
{
    let mut given = Options::none();
    let mut place = 2;
    let mut rest = words;
    while let Some((word, later)) = rest.split_first() {
        if !begins_with_dash(word.as_str()) && runner.has_values() {
            return ended(alloc, runner, given, place, rest);
        }
        if word.as_str() == "--" && runner.has_values() {
            return ended(alloc, runner, given, place + 1, later);
        }
        match runner.option_of(&given, word.as_str()) {
            None => return Err(WordFault::Unknown(place)),
            Some(Named::Flag(flag)) => {
                if given.has_flag(flag) {
                    return Err(WordFault::Repeated(place));
                }
                given = given.with_flag(flag);
                rest = later;
                place += 1;
            }
            Some(Named::Setting(setting)) => {
                if given.has_setting(setting) {
                    return Err(WordFault::Repeated(place));
                }
                let Some((value, last)) = later.split_first() else {
                    return Err(WordFault::Missing);
                };
                given = given.with_setting(alloc, setting, place + 1, value.as_str())?;
                rest = last;
                place += 2;
            }
        }
    }
    ended(alloc, runner, given, place, rest)
}

/// The command with these options and values, of which the first is word `place`.
fn ended(
    alloc: Global,
    runner: Runner,
    given: Options,
    place: usize,
    values: &[String],
) -> Result<Command, WordFault>
    ensures { Gives result (ended runner given place (bytes_of values.now)) }
{
    match runner {
        Runner::Run => Ok(Command::Run(run_set(alloc, given, texts_of(alloc, values)?)?)),
        Runner::Mean => Ok(Command::Mean(mean_set(alloc, given, texts_of(alloc, values)?)?)),
        Runner::Compile => Ok(Command::Compile(compile_set(&given))),
        Runner::Verify => Ok(Command::Verify(mean_set(alloc, given, texts_of(alloc, values)?)?)),
        Runner::Again => change(alloc, given, place, values),
    }
}

/// `again` with the number of an argument, which is word `place`, its new value and the values.
fn change(
    alloc: Global,
    given: Options,
    place: usize,
    values: &[String],
) -> Result<Command, WordFault>
    ensures { Gives result (reads_change given place (bytes_of values.now)) }
{
    let Some((word, more)) = values.split_first() else {
        return Err(WordFault::Missing);
    };
    let argument = number_in(word.as_str(), place, 1, 65535)? as u32;
    let Some((value, later)) = more.split_first() else {
        return Err(WordFault::Missing);
    };
    let value = Text::from_slice(alloc, value.as_bytes())?;
    let set = again_set(alloc, given, argument, value, texts_of(alloc, later)?)?;
    Ok(Command::Again(set))
}

/// The words as texts.
fn texts_of(alloc: Global, words: &[String]) -> Result<Texts, NoMemory>
    ensures { IfOk result (λ texts. texts ≡ bytes_of words.now) }
{
    let mut texts = Texts::new(alloc);
    for word in words {
        texts.add(Text::from_slice(alloc, word.as_bytes())?)?;
    }
    Ok(texts)
}

/// Whether a word begins as an option does.
fn begins_with_dash(word: &str) -> bool
    ensures { result ≡ begins_with_dash word.now }
{
    matches!(word.as_bytes(), [b'-', ..])
}
