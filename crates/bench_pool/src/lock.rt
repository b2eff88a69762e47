//! Steps of a lock with a history. It prints what the machine has at the end.
//!
//! Words: the number of workers (`1`, `2` or `4`), and `long` for many steps.
use crate::tally::Tally;
use crate::team;
use std::io;
use std::sync::Wait;
use std::thread::Threads;

const SHORT: u64 = 1000;

const LONG: u64 = 4_000_000;

/// Lets the workers that the words name step, on threads of the second argument.
pub fn run<R: Threads + Wait + Sync>(
    rt: HostRuntime,
    threads: &R,
    words: &[String],
) -> io::Result<()> {
    let mut workers = 1;
    let mut steps = SHORT;
    for word in words {
        match word.as_str() {
            "2" => workers = 2,
            "4" => workers = 4,
            "long" => steps = LONG,
            _ => {}
        }
    }
    let Ok(Tally { sum }) = team::run(threads, rt.alloc(), workers, steps / workers as u64) else {
        return println!(rt; "no memory");
    };
    println!(rt; "{steps} steps by {workers}: {sum}")
}
