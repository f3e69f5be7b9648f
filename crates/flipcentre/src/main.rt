//! `flipcentre`: a solver, prover and checker for central triangulation under parallel edge flips.
#![tactic(auto)]

use centre_run::{Status, end_number};
use host_io::{DirStore, StdSink};
use std::process::ExitCode;
use std::{env, io};
use worker_crew::NoGate;

// The words after the program's name.
fn command_words(rt: &HostRuntime) -> io::Result<Vec<String>> {
    let words = env::args(rt)?.skip(1).collect::<Vec<String>>(rt.alloc())?;
    Ok(words)
}

fn main(rt: HostRuntime) -> ExitCode {
    let alloc = rt.alloc();
    let words = match command_words(&rt) {
        Ok(words) => words,
        Err(error) if error.kind() == io::ErrorKind::OutOfMemory => {
            return ExitCode::from(Status::Memory.number());
        }
        // A word that is no text is none of a command.
        Err(_) => Vec::new(alloc),
    };
    let mut store = DirStore::make(&rt);
    let mut out = StdSink::make(&rt);
    ExitCode::from(end_number(&rt, alloc, &words, &mut store, &mut out, &NoGate))
}
