//! Work of a pool of aggregates. It prints what was done.
//!
//! Words: what to do (`put`, `lend`, `room` or `write`), and `long` for much of it.
use crate::pooled::{lend_often, put_often};
use crate::rooms::{build_often, gather_often};
use flow_value::NoMemory;
use std::alloc::Global;
use std::io;

const SHORT: i64 = 1000;

const LONG: i64 = 4_000_000;

// How many places an array has.
const PLACES: usize = 1_000_000;

#[derive(Drop)]
enum Work {
    // A value is put in and taken out.
    Put,
    // A value is lent and given back.
    Lend,
    // An array is begun and given up.
    Room,
    // An array is built, each of its places written, and let go.
    Write,
}

fn done(alloc: Global, work: Work, steps: i64) -> Result<i64, NoMemory> {
    match work {
        Work::Put => put_often(alloc, steps),
        Work::Lend => lend_often(alloc, steps),
        Work::Room => build_often(alloc, steps / 400, PLACES),
        Work::Write => gather_often(alloc, steps / 400_000, PLACES),
    }
}

/// Does what the words name.
pub fn run(rt: HostRuntime, words: &[String]) -> io::Result<()> {
    let mut work = Work::Put;
    let mut steps = SHORT;
    for word in words {
        match word.as_str() {
            "lend" => work = Work::Lend,
            "room" => work = Work::Room,
            "write" => work = Work::Write,
            "long" => steps = LONG,
            _ => {}
        }
    }
    match done(rt.alloc(), work, steps) {
        Ok(sum) => println!(rt; "{steps} steps: {sum}"),
        Err(NoMemory) => println!(rt; "no memory"),
    }
}
