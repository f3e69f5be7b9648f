//! The commands over files and standard output, one after the other: what each prints, and then the number that it ends with.
#![tactic(auto)]

use centre_run::end_number;
use host_io::{DirStore, StdSink};
use std::io;
use std::sync::Wait;
use std::thread::Threads;
use worker_crew::NoGate;

// Runs a command in the working folder, with threads by this handle, and prints the number that it ends with.
fn show<R: Threads + Wait + Sync>(rt: &HostRuntime, threads: &R, words: &[&str]) -> io::Result<()> {
    let alloc = rt.alloc();
    let mut texts = Vec::new(alloc);
    for word in words {
        texts.push(String::from_str(alloc, word)?)?;
    }
    let mut store = DirStore::make(rt);
    let mut out = StdSink::make(rt);
    let number = end_number(threads, alloc, &texts, &mut store, &mut out, &NoGate);
    println!(rt; "{number}")?;
    Ok(())
}

fn main(rt: HostRuntime) -> io::Result<()> {
    show(&rt, &rt, &["check"])?;
    show(&rt, &rt, &["check", "missing.json"])?;
    show(&rt, &rt, &["check", "list.json"])?;
    show(
        &rt,
        &rt,
        &[
            "solve",
            "square.json",
            "found.json",
            "found.cert",
            "--flips",
            "0",
        ],
    )?;
    show(&rt, &rt, &["score", "square.json", "found.json"])?;
    show(
        &rt,
        &rt,
        &["solve", "square.json", "found.json", "found.cert"],
    )?;
    show(&rt, &rt, &["score", "square.json", "found.json"])?;
    show(
        &rt,
        &rt,
        &["solve", "square.json", "no_folder/found.json", "none.cert"],
    )?;
    show(
        &rt,
        &rt,
        &["solve", "square.json", "alone.json", "./square.json"],
    )?;
    show(&rt, &rt, &["check", "square.json"])?;
    show(
        &rt,
        &rt,
        &["verify", "square.json", "found.json", "found.cert"],
    )?;
    show(
        &rt,
        &rt,
        &["verify", "square.json", "alone.json", "high.cert"],
    )?;
    Ok(())
}
