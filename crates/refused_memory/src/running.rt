// A whole run of `solve`.
use crate::octagon::OCTAGON;
use crate::trial::{Trial, unless_broken};
use centre_run::{Status, run_plain};
use host_io::{MemSink, MemStore};
use std::alloc::{AllocError, Global};

const SOLUTION: &str =
    r#"{"content_type":"CGSHOP2026_Solution","flips":[[],[[[1,4],[1,6]],[[1,7]],[[1,5],[5,7]],[[1,3],[3,5]]]],"instance_uid":"O","meta":{}}"#;

const CERTIFICATE: &str =
    "flipcentre-certificate 3\nuid 4f\ninputs 2 2\nopening 5\ntotal 4\nbound 4\njournal 1\nswap 4 1 4\nround 1 4 1 6\nround 1 7\nround 1 5 5 7\nround 1 3 3 5\nrows 1\nrow 0 1 4\nrefuted 3 1\n175 0 2 87 0\nmet 4\nround 0 2 0 4 0 6\nround 0 3\nround 0 5\nround 3 5 5 7\npack 1 0\nend\n";

const LINE: &str = "total 4 bound 4\n";

// The words of a run that writes under these two names.
fn words(alloc: Global, solution: &str, certificate: &str) -> Result<Vec<String>, AllocError> {
    let mut texts = Vec::new(alloc);
    let fixed = ["--workers", "0", "--turns", "4", "--seed", "1"];
    for word in ["solve", "i.json", solution, certificate] {
        texts.push(String::from_str(alloc, word)?)?;
    }
    for word in fixed {
        texts.push(String::from_str(alloc, word)?)?;
    }
    Ok(texts)
}

fn sink(alloc: Global) -> Result<MemSink, AllocError> {
    let mut out = MemSink::make(alloc);
    out.reserve(200)?;
    Ok(out)
}

// Both texts stand under the names, and the line was printed.
fn is_done(store: &MemStore, out: &MemSink, solution: &str, certificate: &str) -> bool {
    out.bytes() == LINE.as_bytes()
        && store.look(solution) == Some(SOLUTION.as_bytes())
        && store.look(certificate) == Some(CERTIFICATE.as_bytes())
}

// Nothing was printed, and no file is there, or the whole solution alone.
fn is_left(store: &MemStore, out: &MemSink) -> bool {
    out.bytes().is_empty()
        && store.look("c.txt").is_none()
        && store
            .look("s.json")
            .is_none_or(|text| text == SOLUTION.as_bytes())
}

// The two runs, of which the second one is made where the first one is refused memory.
fn run_twice(
    alloc: Global,
    store: &mut MemStore,
    first: &[String],
    second: &[String],
    mut out: MemSink,
) -> Result<Trial, AllocError> {
    match run_plain(alloc, first, store, &mut out) {
        Status::Done => Ok(unless_broken(is_done(store, &out, "s.json", "c.txt"), Trial::Answered)),
        Status::Memory => {
            let left = is_left(store, &out);
            let mut out = sink(alloc)?;
            let done = run_plain(alloc, second, store, &mut out) == Status::Done;
            let whole = is_done(store, &out, "s2.json", "c2.txt");
            Ok(unless_broken(left && done && whole, Trial::Kept))
        }
        _ => Ok(Trial::Broken),
    }
}

// A run with four turns, which are enough for a better plan than the opening.
pub(crate) fn try_run(alloc: Global) -> Result<Trial, AllocError> {
    let mut store = MemStore::make(alloc);
    store.hold("i.json", OCTAGON.as_bytes())?;
    let first = words(alloc, "s.json", "c.txt")?;
    let second = words(alloc, "s2.json", "c2.txt")?;
    let out = sink(alloc)?;
    run_twice(alloc, &mut store, &first, &second, out)
}
