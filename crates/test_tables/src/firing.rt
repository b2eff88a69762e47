//! A simple node on operands: whether its outputs are those of its row. With tabs between them a row has
//! a name, an opcode, a shape, the operands by port, `=` and the outputs. A value is written with its
//! parts before it: `5 6 [1:2` is the array of 5 and 6 from 1, `{2` a stream and `<2` a record of the two
//! values before, `(0` the union of tag 0 with the one before, `c97` a character; `-` is no operand. A node
//! is fired from operands that are lent, from operands that are owned, and in place where it can be.
use crate::fired::verdict;
use crate::line::Line;
use flow_value::NoMemory;
use std::alloc::Global;
use std::io;

fn answer(alloc: Global, row: &str) -> Result<&'static str, NoMemory> {
    verdict(alloc, &Line::read(alloc, row)?)
}

/// Prints the name of a row, and what was said of its node.
pub fn tell(rt: HostRuntime, row: &str) -> io::Result<()> {
    let (name, rest) = row.split_once('\t').unwrap_or(("", ""));
    match answer(rt.alloc(), rest) {
        Ok(said) => println!(rt; "{name}: {said}"),
        Err(NoMemory) => println!(rt; "{name}: no memory"),
    }
}
