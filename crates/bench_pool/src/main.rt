//! Does what its words name, for a script of `bench/` to time, and prints what was done: `lock`, `pool` and
//! `places`, with words behind them, `values` and `copy`, and these two as `values-long` and `copy-long`.
//! Without words each line of standard input has the words of such a call, with spaces between them; then the
//! words are printed before the call.
#![tactic(auto)]

mod copies;
mod lock;
mod places;
mod pool;
mod pooled;
mod rooms;
mod tally;
mod team;
mod values;

use std::alloc::Global;
use std::io::{BufRead, BufReader};
use std::sync::Wait;
use std::thread::Threads;
use std::{env, io};

/// Does what the words name.
fn call<R: Threads + Wait + Sync>(
    rt: HostRuntime,
    threads: &R,
    words: &[String],
) -> io::Result<()> {
    let [word, more @ ..] = words else {
        return Ok(());
    };
    match word.as_str() {
        "lock" => lock::run(rt, threads, more),
        "pool" => pool::run(rt, more),
        "places" => places::run(rt, more),
        other => copies::run(rt, other),
    }
}

fn words_of(alloc: Global, line: &str) -> io::Result<Vec<String>> {
    let mut words = Vec::new(alloc);
    for word in line.split(' ') {
        words.push(String::from_str(alloc, word)?)?;
    }
    Ok(words)
}

/// Makes the call of each line of standard input.
fn call_lines<R: Threads + Wait + Sync>(rt: HostRuntime, threads: &R) -> io::Result<()> {
    let reader = BufReader::new(rt.alloc(), rt.stdin())?;
    for line in reader.lines(rt.alloc()) {
        let line = line?;
        println!(rt; "{line}")?;
        let words = words_of(rt.alloc(), line.as_str())?;
        call(rt, threads, words.as_slice())?;
    }
    Ok(())
}

fn main(rt: HostRuntime) -> io::Result<()> {
    let words = env::args(&rt)?.skip(1).collect::<Vec<String>>(rt.alloc())?;
    match words.as_slice() {
        [] => call_lines(rt, &rt),
        _ => call(rt, &rt, words.as_slice()),
    }
}
