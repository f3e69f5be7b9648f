// The files of a square, and runs over them. What has `must` in its name fails unless things are so.
use centre_run::{Status, run_plain};
use host_io::{MemSink, MemStore};
use std::alloc::Global;
use std::test::Fail;

// The diagonals of a square as its two inputs.
const SQUARE: &str =
    r#"{"instance_uid":"Q","points_x":[0,2,2,0],"points_y":[0,0,2,2],"triangulations":[[[0,2]],[[1,3]]]}"#;

// What `solve` writes for it.
const SOLUTION: &str =
    r#"{"content_type":"CGSHOP2026_Solution","flips":[[],[[[1,3]]]],"instance_uid":"Q","meta":{}}"#;

const CERTIFICATE: &str =
    "flipcentre-certificate 3\nuid 51\ninputs 2 2\nopening 1\ntotal 1\nbound 1\njournal 0\nrows 1\nrow 0 1 1\ncrosses first 0 2 1\nmet 1\nround 0 2\npack 1 0\nend\n";

// A file of the square, and the command that is asked about it.
#[derive(Clone, Copy)]
pub(crate) struct File {
    // The name that it stands under.
    pub(crate) name: &'static str,
    pub(crate) text: &'static str,
    pub(crate) words: &'static [&'static str],
    // How the lines begin that the command prints of a file that is right, and of one that has a fault.
    pub(crate) right: &'static str,
    pub(crate) refused: &'static str,
}

pub(crate) const INSTANCE: File = File {
    name: "i.json",
    text: SQUARE,
    words: &["check", "i.json"],
    right: "valid ",
    refused: "refused instance ",
};

pub(crate) const PLAN: File = File {
    name: "s.json",
    text: SOLUTION,
    words: &["score", "i.json", "s.json"],
    right: "total ",
    refused: "refused solution ",
};

pub(crate) const PROOF: File = File {
    name: "c.txt",
    text: CERTIFICATE,
    words: &["verify", "i.json", "s.json", "c.txt"],
    right: "yes ",
    refused: "refused certificate ",
};

// A store with the three files.
pub(crate) fn square_store(alloc: Global) -> Result<MemStore, Fail> {
    let mut store = MemStore::make(alloc);
    for file in [INSTANCE, PLAN, PROOF] {
        store.hold(file.name, file.text.as_bytes())?;
    }
    Ok(store)
}

fn texts_of(alloc: Global, words: &[&str]) -> Result<Vec<String>, Fail> {
    let mut texts = Vec::new(alloc);
    for word in words {
        texts.push(String::from_str(alloc, word)?)?;
    }
    Ok(texts)
}

// A sink with room for so many bytes.
pub(crate) fn sink_of(alloc: Global, room: usize) -> Result<MemSink, Fail> {
    let mut out = MemSink::make(alloc);
    out.reserve(room)?;
    Ok(out)
}

// What a run with these words ends with and prints, where its line goes to this sink.
pub(crate) fn run_to(
    alloc: Global,
    store: &mut MemStore,
    mut out: MemSink,
    words: &[&str],
) -> Result<(Status, String), Fail> {
    let texts = texts_of(alloc, words)?;
    let status = run_plain(alloc, &texts, store, &mut out);
    let line = String::from_utf8(out.bytes().to_vec(alloc)?)?;
    Ok((status, line))
}

// The same, where there is room for the line.
pub(crate) fn run_with(
    alloc: Global,
    store: &mut MemStore,
    words: &[&str],
) -> Result<(Status, String), Fail> {
    run_to(alloc, store, sink_of(alloc, 200)?, words)
}

// What the command of a file says where these bytes stand in its place.
pub(crate) fn run_on(alloc: Global, file: File, bytes: &[u8]) -> Result<(Status, String), Fail> {
    let mut store = square_store(alloc)?;
    store.hold(file.name, bytes)?;
    run_with(alloc, &mut store, file.words)
}

// A run ended so, with this line.
pub(crate) fn must_be(found: &(Status, String), status: Status, line: &str) -> Result<(), Fail> {
    if found.0 == status && found.1.as_str() == line {
        Ok(())
    } else {
        Err(Fail::new(format_args!(
            "{:?} with {:?}, where {status:?} with {line:?} is wanted",
            found.0, found.1
        )))
    }
}

// The number of the line in which the byte at this place stands, counted from 1.
pub(crate) fn line_at(bytes: &[u8], place: usize) -> u64 {
    let mut line = 1u64;
    for byte in &bytes[..place.min(bytes.len())] {
        if *byte == b'\n' {
            line = line.saturating_add(1);
        }
    }
    line
}
