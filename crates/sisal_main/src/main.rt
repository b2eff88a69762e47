//! The program `sisal`: its words are the arguments, its text is standard input, its results go to
//! standard output and its refusals to standard error.
#![tactic(auto)]

use flow_io::{ReaderSource, WriterSink};
use run_gate::OpenGate;
use sisal_top::{Status, report, sisal};
use std::process::ExitCode;
use std::{env, io};

/// The arguments after the program's name.
fn words(rt: &HostRuntime) -> io::Result<Vec<String>> {
    Ok(env::args(rt)?.skip(1).collect(rt.alloc())?)
}

fn main(rt: HostRuntime) -> ExitCode {
    let mut text = ReaderSource::new(rt.stdin());
    let mut out = WriterSink::new(rt.stdout());
    let mut err = WriterSink::new(rt.stderr());
    let status = match words(&rt) {
        Ok(words) => sisal(
            rt.alloc(),
            words.as_slice(),
            &mut text,
            &mut out,
            &mut err,
            &OpenGate,
        ),
        // Words that are no text are taken as no words.
        Err(e) if e.kind() == io::ErrorKind::InvalidData => {
            sisal(rt.alloc(), &[], &mut text, &mut out, &mut err, &OpenGate)
        }
        Err(_) => report(Status::NoMemory, &mut err),
    };
    ExitCode::from(status.code())
}
