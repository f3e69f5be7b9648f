// Runs of `solve` over a store and a sink that fail in mid-course: how they end, and what stands under the names then.
use crate::runs::{line_sink, must_leave, outcome_in, run_to, run_with, store_with};
use centre_run::Status;
use std::alloc::Global;
use std::test::Fail;

const SQUARE: &str =
    r#"{"instance_uid":"Q","points_x":[0,2,2,0],"points_y":[0,0,2,2],"triangulations":[[[0,2]],[[1,3]]]}"#;

const SOLUTION: &str =
    r#"{"content_type":"CGSHOP2026_Solution","flips":[[],[[[1,3]]]],"instance_uid":"Q","meta":{}}"#;

const CERTIFICATE: &str =
    "flipcentre-certificate 3\nuid 51\ninputs 2 2\nopening 1\ntotal 1\nbound 1\njournal 0\nrows 1\nrow 0 1 1\ncrosses first 0 2 1\nmet 1\nround 0 2\npack 1 0\nend\n";

// The words of a run without turns.
const WORDS: [&str; 8] = [
    "solve",
    "i.json",
    "s.json",
    "c.txt",
    "--workers",
    "0",
    "--turns",
    "0",
];

// A run ends so and leaves these where a call of the store fails. If it is a write, the first five bytes are held.
fn must_fail_at(
    alloc: Global,
    call: u64,
    status: Status,
    solution: &str,
    certificate: &str,
) -> Result<(), Fail> {
    let mut store = store_with(alloc, SQUARE)?;
    store.fail_at(call, 5)?;
    let (found, line) = run_with(alloc, &mut store, &WORDS)?;
    let end = outcome_in(alloc, &store, found, line)?;
    let wanted = if status == Status::Done {
        "total 1 bound 1\n"
    } else {
        ""
    };
    must_leave(&end, status, wanted, solution, certificate)
}

#[test]
fn a_read_that_fails_is_a_read_fault(rt: HostRuntime) -> Result<(), Fail> {
    must_fail_at(rt.alloc(), 0, Status::ReadFault, "", "")
}

#[test]
fn a_solution_that_breaks_off_is_a_write_fault(rt: HostRuntime) -> Result<(), Fail> {
    must_fail_at(rt.alloc(), 1, Status::WriteFault, r#"{"con"#, "")
}

#[test]
fn a_certificate_that_breaks_off_is_a_write_fault(rt: HostRuntime) -> Result<(), Fail> {
    must_fail_at(rt.alloc(), 2, Status::WriteFault, SOLUTION, "flipc")
}

// A run whose sink takes nothing is a write fault, and leaves these.
fn must_stall(alloc: Global, solution: &str, certificate: &str) -> Result<(), Fail> {
    let mut store = store_with(alloc, SQUARE)?;
    let mut out = line_sink(alloc)?;
    out.stall_at(0)?;
    let (found, line) = run_to(alloc, &mut store, out, &WORDS)?;
    let end = outcome_in(alloc, &store, found, line)?;
    must_leave(&end, Status::WriteFault, "", solution, certificate)
}

#[test]
fn a_line_that_is_not_taken_is_a_write_fault(rt: HostRuntime) -> Result<(), Fail> {
    must_stall(rt.alloc(), SOLUTION, CERTIFICATE)
}

#[test]
fn a_store_is_called_three_times(rt: HostRuntime) -> Result<(), Fail> {
    must_fail_at(rt.alloc(), 3, Status::Done, SOLUTION, CERTIFICATE)
}
