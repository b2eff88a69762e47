//! The call that does all that the program does.
ghost use Rattle.std.specs.Prelude.{◌≡◌, ◌≢◌, ◌⊎◌, ◌↔◌, ◌<◌, ℕ, List, false, length, take, map, Some, Ok, Err, IfOk, IfErr, OnOk, IsTrue};
ghost use Rattle.flow_io.specs.Bytes.{TakesOff, IsAtEnd, AddsOn};
ghost use Rattle.flow_io.specs.Count.{HasRisen};
ghost use Rattle.run_words.specs.Commands.{bytes_of};
ghost use Rattle.run_words.specs.declared.command.Command.TheVariants as command;
ghost use Rattle.sisal_top.specs.Answer.{Answers, Gives, IsUsage, Replies};
ghost use Rattle.sisal_top.specs.Lines.{line_of};
ghost use Rattle.sisal_top.specs.Outputs.{HasGraphs, RunsUnit};
ghost use Rattle.sisal_top.specs.Program.{AskToRead, Fits, IsBuilt, IsPlain, ReadsText, most_bytes};
ghost use Rattle.sisal_top.specs.Refusals.{IsEarly, IsOfBytes, IsOverrun, IsReply, IsUnread};

use crate::front::typed;
use crate::lines::report;
use crate::printing::{print_all, print_run};
use crate::status::Status;
use crate::texts::{help, version};
use compile_call::{compile, marked};
use flow_gen::make;
use flow_io::{ReadFail, Sink, Source, read_all, write_all};
use flow_value::Text;
use if1_call::canonical_text;
use if1_sound::Sound;
use mean_call::evaluate;
use run_call::{run, unit_of_text};
use run_gate::Gate;
use run_words::{Command, CompileSet, MeanSet, RunSet, read_words};
use std::alloc::Global;

/// The most bytes of a text.
const MOST_BYTES: usize = 4194304;

/// Whether a run is by one worker in the usual order, of the graphs as they are, without a trace.
fn is_plain(set: &RunSet) -> bool
    ensures { IsTrue result ↔ IsPlain set.now }
{
    set.workers == 1 && set.order == 0 && !set.opt && !set.trace
}

/// Whether `compile` takes the graphs as they are translated.
fn is_built(set: &CompileSet) -> bool
    ensures { IsTrue result ↔ IsBuilt set.now }
{
    !set.opt
}

/// Reads the text to its end.
fn read<S: Source>(alloc: Global, text: &mut S) -> Result<Text, Status>
    ensures bytes { IfOk result (λ bytes. TakesOff (S.left text.old) bytes (S.left text.new)) }
    ensures few { IfOk result Fits }
    ensures to_the_end { OnOk result (IsAtEnd (S.left text.new)) }
    ensures overrun { result ≡ Err Status.TooLong → IsOverrun (S.left text.old) (S.left text.new) }
    ensures too_long { result ≡ Err Status.TooLong → (told : List ℕ) → S.left text.old ≡ Some told → most_bytes < length told }
    ensures fault { result ≡ Err Status.ReadFault → HasRisen (S.faults text.old) (S.faults text.new) }
    ensures no_fault { result ≢ Err Status.ReadFault → S.faults text.new ≡ S.faults text.old }
    ensures refused { IfErr result IsUnread }
{
    match read_all(alloc, text, MOST_BYTES) {
        Ok(bytes) => Ok(bytes),
        Err(ReadFail::ReadFault) => Err(Status::ReadFault),
        Err(ReadFail::TooLong) => Err(Status::TooLong),
        Err(ReadFail::NoMemory) => Err(Status::NoMemory),
    }
}

/// The unit of graphs of the program that a text is, with the marks that are made.
fn unit_of_program(alloc: Global, set: &RunSet, bytes: &[u8]) -> Result<Sound, Status>
    requires plain { IsPlain set.now }
    requires sisal { set.now.if1 ≡ false }
    requires few { Fits bytes.now }
    ensures unit { IfOk result (HasGraphs bytes.now) }
    ensures refused { IfErr result (λ s. Replies (command.Run set.now) bytes.now (Err s)) }
    ensures of_bytes { IfErr result IsOfBytes }
{
    let _ = set;
    let program = typed(alloc, bytes)?;
    let marked = marked(alloc, &program)?;
    Ok(marked.sound)
}

/// The unit of graphs that a text is, as SISAL or as IF1, with the marks with which it runs.
fn unit_to_run(alloc: Global, set: &RunSet, bytes: &[u8]) -> Result<Sound, Status>
    requires plain { IsPlain set.now }
    requires few { Fits bytes.now }
    ensures unit { IfOk result (RunsUnit set.now.if1 bytes.now) }
    ensures refused { IfErr result (λ s. Replies (command.Run set.now) bytes.now (Err s)) }
    ensures of_bytes { IfErr result IsOfBytes }
{
    if set.if1 {
        let unit = unit_of_text(alloc, bytes)?;
        Ok(unit)
    } else {
        unit_of_program(alloc, set, bytes)
    }
}

/// What is printed of a run of the unit that a text is.
fn results<G: Gate>(alloc: Global, set: &RunSet, bytes: &[u8], gate: &G) -> Result<Text, Status>
    requires plain { IsPlain set.now }
    requires few { Fits bytes.now }
    ensures replies { Replies (command.Run set.now) bytes.now result }
    ensures of_bytes { IfErr result IsOfBytes }
{
    let unit = unit_to_run(alloc, set, bytes)?;
    let totals = run(alloc, unit, set, gate)?;
    let printed = print_run(alloc, &totals, set.stats)?;
    Ok(printed)
}

/// Runs the unit of graphs that the text is.
fn run_text<S: Source, G: Gate>(
    alloc: Global,
    set: &RunSet,
    text: &mut S,
    gate: &G,
) -> Result<Text, Status>
    requires { IsPlain set.now }
    ensures replies { (told : List ℕ) → S.left text.old ≡ Some told → Replies (command.Run set.now) told result }
    ensures reply { IfErr result IsReply }
    ensures overrun { result ≡ Err Status.TooLong → IsOverrun (S.left text.old) (S.left text.new) }
    ensures to_the_end { OnOk result (IsAtEnd (S.left text.new)) }
    ensures read { IfErr result (λ s. IsUnread s ⊎ IsAtEnd (S.left text.new)) }
    ensures fault { result ≡ Err Status.ReadFault → HasRisen (S.faults text.old) (S.faults text.new) }
    ensures no_fault { result ≢ Err Status.ReadFault → S.faults text.new ≡ S.faults text.old }
{
    let bytes = read(alloc, text)?;
    results(alloc, set, bytes.as_slice(), gate)
}

/// What the program that a text is prints by the meaning of its source.
fn meaning(alloc: Global, set: &MeanSet, bytes: &[u8]) -> Result<Text, Status>
    requires few { Fits bytes.now }
    ensures replies { Replies (command.Mean set.now) bytes.now result }
    ensures of_bytes { IfErr result IsOfBytes }
{
    let program = typed(alloc, bytes)?;
    let values = evaluate(alloc, &program, set)?;
    let printed = print_all(alloc, values.as_slice())?;
    Ok(printed)
}

/// Evaluates the program that the text is by the meaning of its source.
fn mean<S: Source>(alloc: Global, set: &MeanSet, text: &mut S) -> Result<Text, Status>
    ensures replies { (told : List ℕ) → S.left text.old ≡ Some told → Replies (command.Mean set.now) told result }
    ensures reply { IfErr result IsReply }
    ensures overrun { result ≡ Err Status.TooLong → IsOverrun (S.left text.old) (S.left text.new) }
    ensures to_the_end { OnOk result (IsAtEnd (S.left text.new)) }
    ensures read { IfErr result (λ s. IsUnread s ⊎ IsAtEnd (S.left text.new)) }
    ensures fault { result ≡ Err Status.ReadFault → HasRisen (S.faults text.old) (S.faults text.new) }
    ensures no_fault { result ≢ Err Status.ReadFault → S.faults text.new ≡ S.faults text.old }
{
    let bytes = read(alloc, text)?;
    meaning(alloc, set, bytes.as_slice())
}

/// What is printed of the graphs of the program that a text is.
fn graphs(alloc: Global, set: &CompileSet, bytes: &[u8]) -> Result<Text, Status>
    requires built { IsBuilt set.now }
    requires few { Fits bytes.now }
    ensures replies { Replies (command.Compile set.now) bytes.now result }
    ensures of_bytes { IfErr result IsOfBytes }
{
    let program = typed(alloc, bytes)?;
    let printed = compile(alloc, &program, set)?;
    Ok(printed)
}

/// Compiles the program that the text is.
fn compile_text<S: Source>(alloc: Global, set: &CompileSet, text: &mut S) -> Result<Text, Status>
    requires { IsBuilt set.now }
    ensures replies { (told : List ℕ) → S.left text.old ≡ Some told → Replies (command.Compile set.now) told result }
    ensures reply { IfErr result IsReply }
    ensures overrun { result ≡ Err Status.TooLong → IsOverrun (S.left text.old) (S.left text.new) }
    ensures to_the_end { OnOk result (IsAtEnd (S.left text.new)) }
    ensures read { IfErr result (λ s. IsUnread s ⊎ IsAtEnd (S.left text.new)) }
    ensures fault { result ≡ Err Status.ReadFault → HasRisen (S.faults text.old) (S.faults text.new) }
    ensures no_fault { result ≢ Err Status.ReadFault → S.faults text.new ≡ S.faults text.old }
{
    let bytes = read(alloc, text)?;
    graphs(alloc, set, bytes.as_slice())
}

/// The canonical text of the unit that a text is.
fn written(alloc: Global, bytes: &[u8]) -> Result<Text, Status>
    requires few { Fits bytes.now }
    ensures replies { Replies command.If1 bytes.now result }
    ensures of_bytes { IfErr result IsOfBytes }
{
    let printed = canonical_text(alloc, bytes)?;
    Ok(printed)
}

/// Checks the unit that the text is, and writes it canonically.
fn if1<S: Source>(alloc: Global, text: &mut S) -> Result<Text, Status>
    ensures replies { (told : List ℕ) → S.left text.old ≡ Some told → Replies command.If1 told result }
    ensures reply { IfErr result IsReply }
    ensures overrun { result ≡ Err Status.TooLong → IsOverrun (S.left text.old) (S.left text.new) }
    ensures to_the_end { OnOk result (IsAtEnd (S.left text.new)) }
    ensures read { IfErr result (λ s. IsUnread s ⊎ IsAtEnd (S.left text.new)) }
    ensures fault { result ≡ Err Status.ReadFault → HasRisen (S.faults text.old) (S.faults text.new) }
    ensures no_fault { result ≢ Err Status.ReadFault → S.faults text.new ≡ S.faults text.old }
{
    let bytes = read(alloc, text)?;
    written(alloc, bytes.as_slice())
}

/// What a command prints.
fn perform<S: Source, G: Gate>(
    alloc: Global,
    command: Command,
    text: &mut S,
    gate: &G,
) -> Result<Text, Status>
    ensures replies { (told : List ℕ) → (ReadsText command → S.left text.old ≡ Some told) → Replies command told result }
    ensures reply { IfErr result IsReply }
    ensures overrun { result ≡ Err Status.TooLong → IsOverrun (S.left text.old) (S.left text.new) }
    ensures to_the_end { ReadsText command → OnOk result (IsAtEnd (S.left text.new)) }
    ensures read { ReadsText command → IfErr result (λ s. IsUnread s ⊎ IsAtEnd (S.left text.new)) }
    ensures unread { ¬ ReadsText command → S.left text.new ≡ S.left text.old }
    ensures unfailed { ¬ ReadsText command → S.faults text.new ≡ S.faults text.old }
    ensures fault { result ≡ Err Status.ReadFault → HasRisen (S.faults text.old) (S.faults text.new) }
    ensures no_fault { result ≢ Err Status.ReadFault → S.faults text.new ≡ S.faults text.old }
{
    match command {
        Command::Help => Ok(help(alloc)?),
        Command::Version => Ok(version(alloc)?),
        Command::Gen(n) => Ok(make(alloc, n)?),
        Command::Run(set) => {
            if is_plain(&set) {
                run_text(alloc, &set, text, gate)
            } else {
                Err(Status::Later)
            }
        }
        Command::Mean(set) => mean(alloc, &set, text),
        Command::If1 => if1(alloc, text),
        Command::Compile(set) => {
            if is_built(&set) {
                compile_text(alloc, &set, text)
            } else {
                Err(Status::Later)
            }
        }
        Command::Link | Command::Verify(_) | Command::Again(_) => Err(Status::Later),
    }
}

/// What the words and the text print.
fn prepare<S: Source, G: Gate>(
    alloc: Global,
    words: &[String],
    text: &mut S,
    gate: &G,
) -> Result<Text, Status>
    ensures gives { (told : List ℕ) → (AskToRead (bytes_of words.now) → S.left text.old ≡ Some told) → Gives (bytes_of words.now) told result }
    ensures usage { IfErr result (IsUsage (bytes_of words.now)) }
    ensures early { IfErr result IsEarly }
    ensures overrun { result ≡ Err Status.TooLong → IsOverrun (S.left text.old) (S.left text.new) }
    ensures to_the_end { AskToRead (bytes_of words.now) → OnOk result (IsAtEnd (S.left text.new)) }
    ensures read { AskToRead (bytes_of words.now) → IfErr result (λ s. IsUnread s ⊎ IsAtEnd (S.left text.new)) }
    ensures unread { ¬ AskToRead (bytes_of words.now) → S.left text.new ≡ S.left text.old }
    ensures unfailed { ¬ AskToRead (bytes_of words.now) → S.faults text.new ≡ S.faults text.old }
    ensures fault { result ≡ Err Status.ReadFault → HasRisen (S.faults text.old) (S.faults text.new) }
    ensures no_fault { result ≢ Err Status.ReadFault → S.faults text.new ≡ S.faults text.old }
{
    let command = read_words(alloc, words)?;
    perform(alloc, command, text, gate)
}

/// Does what the words ask for. For `run`, `mean`, `compile` and `if1` the text is read to its end, and what is
/// printed is written at once.
pub fn sisal<S: Source, O: Sink, E: Sink, G: Gate>(
    alloc: Global,
    words: &[String],
    text: &mut S,
    out: &mut O,
    err: &mut E,
    gate: &G,
) -> Status
    // Words that do not ask to read are answered so whatever the text is.
    ensures answers { (told : List ℕ)
        → (AskToRead (bytes_of words.now) → S.left text.old ≡ Some told)
        → Answers (bytes_of words.now) told result (O.taken out.old) (O.taken out.new) }
    ensures usage { IsUsage (bytes_of words.now) result }
    ensures read_fault { result ≡ Status.ReadFault → HasRisen (S.faults text.old) (S.faults text.new) }
    ensures no_read_fault { result ≢ Status.ReadFault → S.faults text.new ≡ S.faults text.old }
    ensures write_fault { result ≡ Status.WriteFault → HasRisen (O.faults out.old) (O.faults out.new) }
    ensures no_write_fault { result ≢ Status.WriteFault → O.faults out.new ≡ O.faults out.old }
    ensures prefix { result ≡ Status.WriteFault
        → (told : List ℕ)
        → (AskToRead (bytes_of words.now) → S.left text.old ≡ Some told)
        → ((printed : List ℕ) × Gives (bytes_of words.now) told (Ok printed) × ((n : ℕ) × AddsOn (O.taken out.old) (take n printed) (O.taken out.new))) }
    ensures untouched { IsEarly result → O.taken out.new ≡ O.taken out.old }
    ensures to_the_end { AskToRead (bytes_of words.now) → IsUnread result ⊎ IsAtEnd (S.left text.new) }
    ensures too_long { result ≡ Status.TooLong → IsOverrun (S.left text.old) (S.left text.new) }
    ensures unread { ¬ AskToRead (bytes_of words.now) → S.left text.new ≡ S.left text.old }
    ensures unfailed { ¬ AskToRead (bytes_of words.now) → S.faults text.new ≡ S.faults text.old }

    // The sink of errors takes the line of the status, which is empty after `Done`.
    ensures line { ¬ HasRisen (E.faults err.old) (E.faults err.new) → AddsOn (E.taken err.old) (line_of result) (E.taken err.new) }
    ensures line_prefix { (n : ℕ) × AddsOn (E.taken err.old) (take n (line_of result)) (E.taken err.new) }
{
    let printed = match prepare(alloc, words, text, gate) {
        Ok(printed) => printed,
        Err(status) => return report(status, err),
    };
    match write_all(out, printed.as_slice()) {
        Ok(()) => report(Status::Done, err),
        Err(_) => report(Status::WriteFault, err),
    }
}
