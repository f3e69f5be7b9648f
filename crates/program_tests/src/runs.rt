// Runs over stores and sinks in memory. What has `must` in its name fails unless things are so.
use centre_run::{Status, run_plain};
use host_io::{MemSink, MemStore};
use std::alloc::Global;
use std::test::Fail;

// The words of `verify`.
pub(crate) const VERIFY: [&str; 4] = ["verify", "i.json", "s.json", "c.txt"];

// The words of `score`.
pub(crate) const SCORE: [&str; 3] = ["score", "i.json", "s.json"];

fn texts_of(alloc: Global, words: &[&str]) -> Result<Vec<String>, Fail> {
    let mut texts = Vec::new(alloc);
    for word in words {
        texts.push(String::from_str(alloc, word)?)?;
    }
    Ok(texts)
}

fn text_of(alloc: Global, bytes: &[u8]) -> Result<String, Fail> {
    Ok(String::from_utf8(bytes.to_vec(alloc)?)?)
}

// A store that holds these texts under the names before them.
pub(crate) fn store_of(alloc: Global, files: &[(&str, &str)]) -> Result<MemStore, Fail> {
    let mut store = MemStore::make(alloc);
    for file in files {
        store.hold(file.0, file.1.as_bytes())?;
    }
    Ok(store)
}

// A store that holds an instance under the name `i.json`.
pub(crate) fn store_with(alloc: Global, instance: &str) -> Result<MemStore, Fail> {
    store_of(alloc, &[("i.json", instance)])
}

// The text under a name, empty where there is none.
pub(crate) fn text_under(alloc: Global, store: &MemStore, name: &str) -> Result<String, Fail> {
    text_of(alloc, store.look(name).unwrap_or(&[]))
}

// A sink with room for a line.
pub(crate) fn line_sink(alloc: Global) -> Result<MemSink, Fail> {
    let mut out = MemSink::make(alloc);
    out.reserve(200)?;
    Ok(out)
}

// What a run with these words ends with and prints, where its line goes to this sink.
pub(crate) fn run_to(
    alloc: Global,
    store: &mut MemStore,
    mut out: MemSink,
    words: &[&str],
) -> Result<(Status, String), Fail> {
    let texts = texts_of(alloc, words)?;
    let status = run_plain(alloc, &texts, store, &mut out);
    Ok((status, text_of(alloc, out.bytes())?))
}

// What a run with these words ends with and prints.
pub(crate) fn run_with(
    alloc: Global,
    store: &mut MemStore,
    words: &[&str],
) -> Result<(Status, String), Fail> {
    run_to(alloc, store, line_sink(alloc)?, words)
}

// The text told is the one wanted.
pub(crate) fn must_say(told: &str, wanted: &str) -> Result<(), Fail> {
    if told == wanted {
        Ok(())
    } else {
        Err(Fail::new(format_args!("{told:?}, where {wanted:?} is wanted")))
    }
}

// A run with these words prints this line.
pub(crate) fn must_print(
    alloc: Global,
    store: &mut MemStore,
    words: &[&str],
    line: &str,
) -> Result<(), Fail> {
    let (_, told) = run_with(alloc, store, words)?;
    must_say(told.as_str(), line)
}

// A run with these words ends so and prints this line.
pub(crate) fn must_end(
    alloc: Global,
    store: &mut MemStore,
    words: &[&str],
    status: Status,
    line: &str,
) -> Result<(), Fail> {
    let (found, told) = run_with(alloc, store, words)?;
    if found == status {
        must_say(told.as_str(), line)
    } else {
        Err(Fail::new(format_args!(
            "{found:?} with {told:?}, where {status:?} with {line:?} is wanted"
        )))
    }
}

// A run with these words over these files ends so and prints this line.
pub(crate) fn must_run(
    alloc: Global,
    files: &[(&str, &str)],
    words: &[&str],
    status: Status,
    line: &str,
) -> Result<(), Fail> {
    let mut store = store_of(alloc, files)?;
    must_end(alloc, &mut store, words, status, line)
}

// What `verify` prints of what stands under the names `s.json` and `c.txt`.
pub(crate) fn verdict(alloc: Global, store: &mut MemStore) -> Result<String, Fail> {
    let (_, line) = run_with(alloc, store, &VERIFY)?;
    Ok(line)
}

// The store with an instance after a run of `solve`.
pub(crate) fn solved_store(alloc: Global, instance: &str) -> Result<MemStore, Fail> {
    let mut store = store_with(alloc, instance)?;
    let words = ["solve", "i.json", "s.json", "c.txt", "--workers", "0"];
    run_with(alloc, &mut store, &words)?;
    Ok(store)
}

// How a run ends, what it prints, and what stands under the names `s.json` and `c.txt` then.
#[derive(Drop)]
pub(crate) struct Outcome {
    pub(crate) status: Status,
    pub(crate) line: String,
    pub(crate) solution: String,
    pub(crate) certificate: String,
}

// What the store holds after a run that ended so and printed this line.
pub(crate) fn outcome_in(
    alloc: Global,
    store: &MemStore,
    status: Status,
    line: String,
) -> Result<Outcome, Fail> {
    let solution = text_under(alloc, store, "s.json")?;
    let certificate = text_under(alloc, store, "c.txt")?;
    Ok(Outcome {
        status,
        line,
        solution,
        certificate,
    })
}

// The run ended so, printed this line and left these two texts.
pub(crate) fn must_leave(
    found: &Outcome,
    status: Status,
    line: &str,
    solution: &str,
    certificate: &str,
) -> Result<(), Fail> {
    if found.status != status {
        return Err(Fail::new(format_args!("{:?}, where {status:?} is wanted", found.status)));
    }
    must_say(found.line.as_str(), line)?;
    must_say(found.solution.as_str(), solution)?;
    must_say(found.certificate.as_str(), certificate)
}
