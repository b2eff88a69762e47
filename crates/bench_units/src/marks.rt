//! Makes the marks of the unit that an IF1 text gives, and checks them. It prints how many edges may
//! take and how many do, or that the marks of the text are not sound; and then, to standard error, the
//! nanoseconds that it took to read and check the text, to make the marks, and to check these, or those of
//! the text where they are not sound.
ghost use Rattle.std.specs.Prelude.{◌<◌, ◌^◌, length};

use crate::ready::ready_of;
use if1_sound::Sound;
use if1_valid::Ready;
use mark_check::check_marks;
use mark_units::{Note, mark};
use std::io;
use std::time::Instant;
use take_marks::Why;

/// How many of the notes are of edges that take.
fn taken(notes: &[Note]) -> usize {
    let mut count: usize = 0;
    for note in notes {
        if matches!(note.why, Why::Taken) {
            count = count.saturating_add(1);
        }
    }
    count
}

/// Times the check of marks that were made, behind the times that the rest took.
fn checked(rt: HostRuntime, unit: Sound, read: u128, made: u128) -> io::Result<()> {
    let ready = unit.into_ready();
    let begin = Instant::now(&rt)?;
    match check_marks(rt.alloc(), ready) {
        Ok(_) => {
            let looked = begin.elapsed(&rt)?.as_nanos();
            eprintln!(rt; "{} {} {}", read, made, looked)
        }
        Err(_) => println!(rt; "marks that were made are not sound"),
    }
}

/// Times the making of the marks.
fn marked(rt: HostRuntime, ready: Ready, read: u128) -> io::Result<()> {
    let begin = Instant::now(&rt)?;
    match mark(rt.alloc(), ready) {
        Ok(marked) => {
            let made = begin.elapsed(&rt)?.as_nanos();
            let notes = marked.notes.as_slice();
            println!(rt; "{} edges may take, {} do", notes.len(), taken(notes))?;
            checked(rt, marked.sound, read, made)
        }
        Err(_) => println!(rt; "no memory"),
    }
}

/// Times the check of the marks of the text, and goes on where they are sound.
fn given(rt: HostRuntime, ready: Ready, read: u128) -> io::Result<()> {
    let begin = Instant::now(&rt)?;
    match check_marks(rt.alloc(), ready) {
        Ok(sound) => marked(rt, sound.into_ready(), read),
        Err(_) => {
            let looked = begin.elapsed(&rt)?.as_nanos();
            println!(rt; "marks that are not sound")?;
            eprintln!(rt; "{} 0 {}", read, looked)
        }
    }
}

/// Times the reading and checking of a text.
pub fn timed(rt: HostRuntime, text: &[u8]) -> io::Result<()>
    requires { length text.now < 2 ^ 32 }
{
    let begin = Instant::now(&rt)?;
    match ready_of(rt.alloc(), text) {
        Ok(ready) => {
            let read = begin.elapsed(&rt)?.as_nanos();
            given(rt, ready, read)
        }
        Err(_) => println!(rt; "no unit"),
    }
}
