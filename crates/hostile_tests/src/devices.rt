// Devices that fail: reads of `verify`, writes of `solve` and the line of `check`.
use crate::files::{INSTANCE, PLAN, PROOF, must_be, run_to, run_with, sink_of, square_store};
use centre_run::Status;
use host_io::MemStore;
use std::alloc::Global;
use std::test::Fail;

// `verify` ends with a read fault where this call of the store fails.
fn must_not_read(alloc: Global, call: u64) -> Result<(), Fail> {
    let mut store = square_store(alloc)?;
    store.fail_at(call, 0)?;
    let found = run_with(alloc, &mut store, PROOF.words)?;
    must_be(&found, Status::ReadFault, "")?;
    must_hold(&store, PLAN.name, PLAN.text)
}

// This text stands under the name.
fn must_hold(store: &MemStore, name: &str, text: &str) -> Result<(), Fail> {
    if store.look(name) == Some(text.as_bytes()) {
        Ok(())
    } else {
        Err(Fail::new("another text"))
    }
}

#[test]
fn each_file_that_is_not_read_is_a_read_fault(rt: HostRuntime) -> Result<(), Fail> {
    for call in 0..3 {
        must_not_read(rt.alloc(), call)?;
    }
    Ok(())
}

#[test]
fn a_line_without_room_is_a_write_fault(rt: HostRuntime) -> Result<(), Fail> {
    let alloc = rt.alloc();
    let mut store = square_store(alloc)?;
    let found = run_to(alloc, &mut store, sink_of(alloc, 0)?, INSTANCE.words)?;
    must_be(&found, Status::WriteFault, "")
}

// The words of a run of `solve` without turns, on names that hold nothing.
const SOLVE: [&str; 8] = [
    "solve",
    "i.json",
    "new.json",
    "new.txt",
    "--workers",
    "0",
    "--turns",
    "0",
];

// The solution breaks off after three bytes, and no certificate is begun.
#[test]
fn a_solution_that_breaks_off_stands_alone(rt: HostRuntime) -> Result<(), Fail> {
    let alloc = rt.alloc();
    let mut store = square_store(alloc)?;
    store.fail_at(1, 3)?;
    let found = run_with(alloc, &mut store, &SOLVE)?;
    must_be(&found, Status::WriteFault, "")?;
    must_hold(&store, "new.json", r#"{"c"#)?;
    must_not_hold(&store, "new.txt")
}

fn must_not_hold(store: &MemStore, name: &str) -> Result<(), Fail> {
    if store.look(name).is_none() {
        Ok(())
    } else {
        Err(Fail::new("a file is begun"))
    }
}

// The sink fails, and both files are whole.
#[test]
fn files_are_whole_where_the_line_fails(rt: HostRuntime) -> Result<(), Fail> {
    let alloc = rt.alloc();
    let mut store = square_store(alloc)?;
    let mut out = sink_of(alloc, 200)?;
    out.fail_at(0)?;
    let found = run_to(alloc, &mut store, out, &SOLVE)?;
    must_be(&found, Status::WriteFault, "")?;
    must_hold(&store, "new.json", PLAN.text)?;
    must_hold(&store, "new.txt", PROOF.text)
}
