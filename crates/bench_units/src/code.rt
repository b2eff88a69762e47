//! Makes the code of the unit that an IF1 text gives. It prints how long the lists of the code are, and
//! then, to standard error, the nanoseconds that it took to read and check the text, to make the marks,
//! and to make the code.
ghost use Rattle.std.specs.Prelude.{◌<◌, ◌^◌, length};

use crate::ready::ready_of;
use if1_sound::Sound;
use if1_valid::Ready;
use mark_units::mark;
use std::io;
use std::time::Instant;
use step_code::Code;
use unit_code::unit_code;

fn lengths(rt: HostRuntime, code: &Code) -> io::Result<()> {
    println!(rt;
        "{} steps, {} operands, {} targets",
        code.steps.len(),
        code.operands.len(),
        code.targets.len()
    )?;
    println!(rt;
        "{} collections, {} marks, {} literals",
        code.collects.len(),
        code.marks.len(),
        code.literals.len()
    )
}

/// Times the making of the code, behind the times that the rest took.
fn coded(rt: HostRuntime, unit: &Sound, read: u128, marks: u128) -> io::Result<()> {
    let begin = Instant::now(&rt)?;
    match unit_code(rt.alloc(), unit) {
        Ok(made) => {
            let code = begin.elapsed(&rt)?.as_nanos();
            lengths(rt, &made.code)?;
            eprintln!(rt; "{} {} {}", read, marks, code)
        }
        Err(_) => println!(rt; "no memory"),
    }
}

/// Times the making of the marks.
fn marked(rt: HostRuntime, ready: Ready, read: u128) -> io::Result<()> {
    let begin = Instant::now(&rt)?;
    match mark(rt.alloc(), ready) {
        Ok(marked) => {
            let marks = begin.elapsed(&rt)?.as_nanos();
            coded(rt, &marked.sound, read, marks)
        }
        Err(_) => println!(rt; "no memory"),
    }
}

/// Times the reading and checking of a text.
pub fn timed(rt: HostRuntime, text: &[u8]) -> io::Result<()>
    requires { length text.now < 2 ^ 32 }
{
    let begin = Instant::now(&rt)?;
    match ready_of(rt.alloc(), text) {
        Ok(ready) => {
            let read = begin.elapsed(&rt)?.as_nanos();
            marked(rt, ready, read)
        }
        Err(_) => println!(rt; "no unit"),
    }
}
