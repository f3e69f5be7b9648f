// Runs of the program's commands on files in memory.
use centre_run::{Status, run};
use host_io::{MemSink, MemStore};
use std::alloc::Global;
use std::sync::Wait;
use std::test::Fail;
use std::thread::Threads;
use worker_crew::Gate;

fn texts_of(alloc: Global, words: &[&str]) -> Result<Vec<String>, Fail> {
    let mut texts = Vec::new(alloc);
    for word in words {
        texts.push(String::from_str(alloc, word)?)?;
    }
    Ok(texts)
}

// The line that the words print, where they end well.
pub(crate) fn line_of<R: Threads + Wait + Sync, G: Gate + Sync>(
    rt: &R,
    alloc: Global,
    store: &mut MemStore,
    words: &[&str],
    gate: &G,
) -> Result<Option<String>, Fail> {
    let texts = texts_of(alloc, words)?;
    let mut out = MemSink::make(alloc);
    out.reserve(200)?;
    if run(rt, alloc, &texts, store, &mut out, gate) != Status::Done {
        return Ok(None);
    }
    Ok(Some(String::from_utf8(out.bytes().to_vec(alloc)?)?))
}

// Whether the words end well with this line.
pub(crate) fn prints<R: Threads + Wait + Sync, G: Gate + Sync>(
    rt: &R,
    alloc: Global,
    store: &mut MemStore,
    words: &[&str],
    gate: &G,
    line: &str,
) -> Result<bool, Fail> {
    match line_of(rt, alloc, store, words, gate)? {
        Some(said) => Ok(said.as_str() == line),
        None => Ok(false),
    }
}
