//! Value texts and copies of arrays of integers: `values` reads and prints the value text of one of a thousand (how
//! many bytes are printed, and a checksum of them), `values-long` of a million; `copy` and `copy-long` copy such an
//! array ten times (how many elements each copy has, and their sum). With the long ones the nanoseconds of the
//! least go to standard error.
use crate::values::{FEW, MANY, again, array, checksum, integers, text_of, told};
use flow_value::{Val, copy};
use std::io;
use std::time::Instant;

/// How many copies are made.
const TIMES: u32 = 10;

/// Times the value text of so many integers.
fn time_values(rt: HostRuntime, count: u32) -> io::Result<()> {
    let alloc = rt.alloc();
    let (Ok(ty), Ok(text)) = (integers(alloc), text_of(alloc, count)) else {
        println!(rt; "no memory")?;
        return Ok(());
    };
    let begin = Instant::now(&rt)?;
    let Ok(printed) = again(alloc, &ty, text.as_slice()) else {
        println!(rt; "no value")?;
        return Ok(());
    };
    let taken = begin.elapsed(&rt)?;
    let sum = checksum(printed.as_slice());
    println!(rt; "{} bytes, checksum {}", printed.len(), sum)?;
    if count == MANY {
        eprintln!(rt; "{}", taken.as_nanos())?;
    }
    Ok(())
}

/// How long a copy of an array takes, in nanoseconds, if there is the memory for it.
fn copy_once(rt: HostRuntime, array: &Val) -> io::Result<Option<u128>> {
    let begin = Instant::now(&rt)?;
    match copy(rt.alloc(), array) {
        Ok(copied) => {
            let taken = begin.elapsed(&rt)?.as_nanos();
            let (count, sum) = told(&copied);
            println!(rt; "{count} elements, sum {sum}")?;
            Ok(Some(taken))
        }
        Err(_) => Ok(None),
    }
}

/// The least time of some copies of an array.
fn least_copy(rt: HostRuntime, array: &Val) -> io::Result<u128> {
    let mut least = u128::MAX;
    for _ in 0..TIMES {
        match copy_once(rt, array)? {
            Some(taken) if taken < least => least = taken,
            _ => {}
        }
    }
    Ok(least)
}

/// Times copies of an array of so many integers.
fn time_copy(rt: HostRuntime, count: u32) -> io::Result<()> {
    match array(rt.alloc(), count) {
        Ok(array) => {
            let least = least_copy(rt, &array)?;
            if count == MANY {
                eprintln!(rt; "{least}")?;
            }
            Ok(())
        }
        Err(_) => println!(rt; "no memory"),
    }
}

/// Does what a word names.
pub fn run(rt: HostRuntime, word: &str) -> io::Result<()> {
    match word {
        "values" => time_values(rt, FEW),
        "values-long" => time_values(rt, MANY),
        "copy" => time_copy(rt, FEW),
        "copy-long" => time_copy(rt, MANY),
        _ => println!(rt; "no such work"),
    }
}
