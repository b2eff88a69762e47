//! Calls the program on each line of standard input, which is a name, the words and a text,
//! with tabs between them; the words have `^` between them, and `@` stands for a line feed of the
//! text. Behind the text there may stand pairs of a number and a piece, which the text goes on with so
//! often. Prints the name, what the call printed and the status. A first word `!read` has the second
//! read of the text fail, `!write` the second write of results, `!report` the first write of a
//! refusal, and a number behind such a word names another call, from 0; then few bytes move at once. A
//! gate counts its calls around each item of the run: with a first word `!gate` there stands behind the status
//! how often it was called before one and after one. The stored run evaluates the programs of `examples/` and
//! small ones for each cause of a refusal, compiles some of them, has rows for words, tokens, syntax,
//! scalars, folds, arrays, records, streams, value texts and items of runs, and checks IF1 texts: units that
//! are right, with and without marks, one for each fault, one cut after each byte, and deep ones. What it
//! must print comes from a separate implementation.
#![tactic(auto)]

ghost use Rattle.std.specs.Prelude.{◌≡◌, ◌<◌};

use flow_io::{MemSink, MemSource, Plan};
use flow_value::{NoMemory, Seq};
use run_gate::Gate;
use sisal_top::{Status, sisal};
use std::alloc::Global;
use std::io;
use std::io::{BufRead, BufReader};
use std::sync::atomic::{AtomicU64, Ordering};

/// The most bytes that move at once, where no call is planned to fail, where one is, and where a write
/// of results is.
const MANY: usize = 4096;

const FEW: usize = 16;

const FEWER: usize = 4;

/// A gate that counts its calls by the first worker.
#[derive(Drop)]
struct Counting {
    before: AtomicU64,
    after: AtomicU64,
}

impl Gate for Counting {
    fn before(&self, worker: u32) {
        if worker == 0 {
            self.before.fetch_add(1, Ordering::SeqCst);
        }
    }

    fn after(&self, worker: u32) {
        if worker == 0 {
            self.after.fetch_add(1, Ordering::SeqCst);
        }
    }
}

/// The words of a call, and how its source and its sinks behave: the call of each that fails.
#[derive(Clone, Copy)]
struct Planned<'a> {
    words: &'a str,
    gated: bool,
    most: usize,
    read: Option<u64>,
    write: Option<u64>,
    report: Option<u64>,
}

/// A call with these words of which nothing fails.
fn unfailing(words: &str, most: usize, gated: bool) -> Planned<'_>
    ensures { result.most ≡ most }
{
    Planned {
        words,
        gated,
        most,
        read: None,
        write: None,
        report: None,
    }
}

/// The number behind a mark, if a word begins with it, and else another one.
fn number_behind(word: &str, mark: &str, other: u64) -> Option<u64> {
    let number = word.strip_prefix(mark)?;
    Some(number.parse::<u64>().unwrap_or(other))
}

/// What a row's words ask for.
fn plan_of(words: &str) -> Planned<'_>
    ensures most { 0 < result.most }
{
    let (first, rest) = words.split_once('^').unwrap_or(("", ""));
    let read = number_behind(first, "!read", 1);
    let write = number_behind(first, "!write", 1);
    let report = number_behind(first, "!report", 0);
    if write.is_some() {
        Planned {
            write,
            ..unfailing(rest, FEWER, false)
        }
    } else if read.is_some() || report.is_some() {
        Planned {
            read,
            report,
            ..unfailing(rest, FEW, false)
        }
    } else if first == "!gate" {
        unfailing(rest, MANY, true)
    } else {
        unfailing(words, MANY, false)
    }
}

/// The plan with the call that fails, if one does.
fn plan(alloc: Global, fails: Option<u64>) -> Result<Plan, NoMemory> {
    match fails {
        Some(call) => Plan::from_slice(alloc, &[call]),
        None => Ok(Plan::new(alloc)),
    }
}

/// What a call did.
#[derive(Drop)]
struct Ended {
    status: Status,
    out: MemSink,
    err: MemSink,
    called: Option<(u64, u64)>,
}

/// The words between `^`.
fn words_of(alloc: Global, words: &str) -> Result<Vec<String>, NoMemory> {
    let mut all = Vec::new(alloc);
    for word in words.split('^') {
        let Ok(word) = String::from_str(alloc, word) else {
            return Err(NoMemory);
        };
        if all.push(word).is_err() {
            return Err(NoMemory);
        }
    }
    Ok(all)
}

/// The text of a row.
fn text_of(alloc: Global, row: &str) -> Result<Vec<u8>, NoMemory> {
    let mut text = Vec::new(alloc);
    let mut times = 1;
    let mut is_number = false;
    for part in row.split('\t') {
        if is_number {
            times = part.parse::<u32>().unwrap_or(0);
        } else {
            for _ in 0..times {
                if text.extend_from_slice(part.as_bytes()).is_err() {
                    return Err(NoMemory);
                }
            }
        }
        is_number = !is_number;
    }
    Ok(text)
}

/// The call on the text of a row.
fn call(alloc: Global, planned: Planned<'_>, row: &str) -> Result<Ended, NoMemory>
    requires most { 0 < planned.most }
{
    let words = words_of(alloc, planned.words)?;
    let text = text_of(alloc, row)?;
    let bytes = Seq::from_slice(alloc, text.as_slice())?;
    let mut from = MemSource::new(bytes, planned.most, plan(alloc, planned.read)?);
    let mut out = MemSink::new(alloc, planned.most, plan(alloc, planned.write)?);
    let mut err = MemSink::new(alloc, MANY, plan(alloc, planned.report)?);
    let words = words.as_slice();
    let gate = Counting {
        before: AtomicU64::new(0),
        after: AtomicU64::new(0),
    };
    let status = sisal(alloc, words, &mut from, &mut out, &mut err, &gate);
    let called = if planned.gated {
        let before = gate.before.load(Ordering::SeqCst);
        let after = gate.after.load(Ordering::SeqCst);
        Some((before, after))
    } else {
        None
    };
    Ok(Ended {
        status,
        out,
        err,
        called,
    })
}

/// Bytes as text; what is printed is always text.
fn shown(bytes: &[u8]) -> &str {
    str::from_utf8(bytes).unwrap_or("no text")
}

fn main(rt: HostRuntime) -> io::Result<()> {
    let reader = BufReader::new(rt.alloc(), rt.stdin())?;
    for line in reader.lines(rt.alloc()) {
        let row = line?.replace(rt.alloc(), "@", "\n")?;
        let (name, rest) = row.split_once('\t').unwrap_or(("no name", ""));
        let (words, text) = rest.split_once('\t').unwrap_or(("", ""));
        match call(rt.alloc(), plan_of(words), text) {
            Ok(ended) => {
                let out = shown(ended.out.bytes().as_slice());
                let err = shown(ended.err.bytes().as_slice());
                let code = ended.status.code();
                match ended.called {
                    None => println!(rt; "{name}: {code}")?,
                    Some((before, after)) => println!(rt; "{name}: {code} {before} {after}")?,
                }
                print!(rt; "{out}{err}")?;
            }
            Err(NoMemory) => println!(rt; "{name}: no memory")?,
        }
    }
    Ok(())
}
