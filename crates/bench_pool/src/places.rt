//! Updates in place. It prints what was done.
//!
//! Words: what to do (`replace`, `ends` or `front`), how many elements there are (`few`, `some` or
//! `many`), and `long` for much of it.
use flow_value::{NoMemory, Operand, Shape, Val};
use if1_graph::Simple;
use node_ops::fire_one;
use place_ops::{add_high_taken, extend_taken, fire_taken, update_taken};
use std::alloc::Global;
use std::io;

const SHORT: i64 = 1000;

const LONG: i64 = 10_000_000;

#[derive(Drop)]
enum Work {
    // The element at one place is changed again and again.
    Replace,
    // An element is added at the end and taken off again.
    Ends,
    // An element is added at the front and taken off again.
    Front,
}

/// An array of so many sevens from 1.
fn sevens(alloc: Global, count: i64) -> Result<Val, NoMemory> {
    let mut ins = [
        Operand::Owned(Val::Int(1)),
        Operand::Owned(Val::Int(count)),
        Operand::Owned(Val::Int(7)),
    ];
    fire_one(alloc, Simple::AFill, Shape::Plain, &mut ins)
}

fn replace_often(array: Val, steps: i64) -> Val {
    let mut array = array;
    for i in 0..steps {
        update_taken(&mut array, &Val::Int(2), Val::Int(i));
    }
    array
}

fn change_ends(array: Val, steps: i64) -> Result<Val, NoMemory> {
    let mut array = array;
    for i in 0..steps {
        add_high_taken(&mut array, Val::Int(i))?;
        fire_taken(Simple::ARemH, &mut array, &mut []);
    }
    Ok(array)
}

fn change_front(alloc: Global, array: Val, steps: i64) -> Result<Val, NoMemory> {
    let mut array = array;
    for i in 0..steps {
        let mut ins = [Operand::Owned(Val::Int(i))];
        extend_taken(alloc, Simple::AAddL, &mut array, &mut ins)?;
        fire_taken(Simple::ARemL, &mut array, &mut []);
    }
    Ok(array)
}

/// The second element and the number of elements.
fn told(array: &Val) -> (i64, usize) {
    match array {
        Val::Arr(a) => match a.as_slice() {
            [_, Val::Int(second), ..] => (*second, a.len()),
            _ => (0, a.len()),
        },
        _ => (0, 0),
    }
}

fn done(alloc: Global, work: Work, count: i64, steps: i64) -> Result<(i64, usize), NoMemory> {
    let array = sevens(alloc, count)?;
    let changed = match work {
        Work::Replace => replace_often(array, steps),
        Work::Ends => change_ends(array, steps)?,
        Work::Front => change_front(alloc, array, steps)?,
    };
    Ok(told(&changed))
}

/// Does what the words name.
pub fn run(rt: HostRuntime, words: &[String]) -> io::Result<()> {
    let mut work = Work::Replace;
    let mut count = 4;
    let mut steps = SHORT;
    for word in words {
        match word.as_str() {
            "ends" => work = Work::Ends,
            "front" => work = Work::Front,
            "some" => count = 4096,
            "many" => count = 4_000_000,
            "long" => steps = LONG,
            _ => {}
        }
    }
    match done(rt.alloc(), work, count, steps) {
        Ok((second, length)) => println!(rt; "{steps} steps: {second} {length}"),
        Err(NoMemory) => println!(rt; "no memory"),
    }
}
