//! `nissy`: notation, steps of solving and scrambles of the 3x3x3 cube on the command line. All is done by `niss_shell::run`.
#![tactic(auto)]

use niss_shell::{FromReader, Meter, ToWriter, run};
use std::io::{ErrorKind, Write};
use std::process::ExitCode;
use std::{env, io};

fn main(rt: HostRuntime) -> ExitCode {
    match arguments(&rt) {
        Ok(words) => run_words(&rt, words.as_slice()),
        Err(error) if error.kind() == ErrorKind::OutOfMemory => {
            let _ = rt.stderr().write_all(b"nissy: out of memory\n");
            ExitCode::from(3)
        }
        // words that are no text are no command
        Err(_) => run_words(&rt, &[]),
    }
}

// The words after the program's own name.
fn arguments(rt: &HostRuntime) -> io::Result<Vec<String>> {
    let mut args = env::args(rt)?;
    let _ = args.next();
    let mut words = Vec::new(rt.alloc());
    for word in args {
        words.push(word)?;
    }
    Ok(words)
}

fn run_words(rt: &HostRuntime, words: &[String]) -> ExitCode {
    let status = run(
        rt.alloc(),
        words,
        &mut FromReader::new(rt.stdin()),
        &mut ToWriter::new(rt.stdout()),
        &mut ToWriter::new(rt.stderr()),
        &mut Meter::new(),
    );
    ExitCode::from(status)
}
