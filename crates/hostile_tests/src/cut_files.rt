// Each proper prefix of a valid file of each kind.
use crate::files::{File, INSTANCE, PLAN, PROOF, line_at, must_be, run_on};
use centre_run::Status;
use std::alloc::Global;
use std::test::Fail;

// The first bytes of a file are refused with this line.
fn must_refuse(alloc: Global, file: File, count: usize, line: &str) -> Result<(), Fail> {
    let bytes = file.text.as_bytes();
    let found = run_on(alloc, file, &bytes[..count.min(bytes.len())])?;
    must_be(&found, Status::Refused, line)
}

// Each proper prefix is refused with this line. Answers how many there are.
fn must_refuse_each(alloc: Global, file: File, line: &str) -> Result<usize, Fail> {
    for count in 0..file.text.len() {
        must_refuse(alloc, file, count, line)?;
    }
    Ok(file.text.len())
}

// The certificate that breaks off after so many bytes is cut in the line of the byte that comes next.
fn must_be_cut(alloc: Global, count: usize) -> Result<(), Fail> {
    let line = line_at(PROOF.text.as_bytes(), count);
    let wanted = format!(in alloc; "refused certificate Cut {line}\n")?;
    must_refuse(alloc, PROOF, count, wanted.as_str())
}

fn must_cut_each(alloc: Global) -> Result<usize, Fail> {
    for count in 0..PROOF.text.len() {
        must_be_cut(alloc, count)?;
    }
    Ok(PROOF.text.len())
}

// So many runs there were.
fn must_count(found: usize, wanted: usize) -> Result<(), Fail> {
    if found == wanted {
        Ok(())
    } else {
        Err(Fail::new(format_args!("{found} runs")))
    }
}

#[test]
fn an_instance_that_breaks_off_is_no_json(rt: HostRuntime) -> Result<(), Fail> {
    let count = must_refuse_each(rt.alloc(), INSTANCE, "refused instance NotJson\n")?;
    must_count(count, 97)
}

#[test]
fn a_solution_that_breaks_off_is_no_json(rt: HostRuntime) -> Result<(), Fail> {
    let count = must_refuse_each(rt.alloc(), PLAN, "refused solution NotJson\n")?;
    must_count(count, 90)
}

#[test]
fn a_certificate_that_breaks_off_is_cut(rt: HostRuntime) -> Result<(), Fail> {
    let count = must_cut_each(rt.alloc())?;
    must_count(count, 145)
}
