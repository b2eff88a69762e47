//! Finds the answers that marks and machines ask of the unit that an IF1 text gives: the shapes of nodes,
//! and of edges which carry aggregates, which consume, which come from owned ports and which port of the
//! graph around lends what they carry. It prints how many there are of each; and then, to standard error,
//! the nanoseconds that it took to read and check the text, and to find the answers.
ghost use Rattle.std.specs.Prelude.{◌<◌, ◌^◌, length};

use crate::ready::ready_of;
use crate::told::told_of;
use if1_sound::Sound;
use mark_check::check_marks;
use std::io;
use std::time::Instant;

/// Times the answers, behind the time that the reading took.
fn answered(rt: HostRuntime, unit: &Sound, read: u128) -> io::Result<()> {
    let begin = Instant::now(&rt)?;
    match told_of(rt.alloc(), unit) {
        Ok(told) => {
            let taken = begin.elapsed(&rt)?.as_nanos();
            println!(rt;
                "{} shapes, {} aggregates, {} consumed",
                told.shapes, told.aggregates, told.consumed
            )?;
            println!(rt; "{} owned, {} lent by a port around", told.owned, told.lent)?;
            eprintln!(rt; "{} {}", read, taken)
        }
        Err(_) => println!(rt; "no memory"),
    }
}

/// Times the reading and checking of a text.
pub fn timed(rt: HostRuntime, text: &[u8]) -> io::Result<()>
    requires { length text.now < 2 ^ 32 }
{
    let begin = Instant::now(&rt)?;
    let Ok(ready) = ready_of(rt.alloc(), text) else {
        println!(rt; "no unit")?;
        return Ok(());
    };
    let read = begin.elapsed(&rt)?.as_nanos();
    match check_marks(rt.alloc(), ready) {
        Ok(sound) => answered(rt, &sound, read),
        Err(_) => println!(rt; "marks that are not sound"),
    }
}
