// A valid file of each kind with each of its bytes replaced by each of five others, and how often the runs end how.
use crate::files::{File, INSTANCE, PLAN, PROOF, line_at, run_on};
use centre_run::Status;
use std::alloc::Global;
use std::test::Fail;

// What a byte is replaced by. Where it is the same, a `1` stands in its place.
const OTHERS: [u8; 5] = [b'0', b'-', b'"', b' ', 0xFF];

fn other_than(byte: u8, other: u8) -> u8 {
    if byte == other { b'1' } else { other }
}

// How many runs ended with all done, with a file refused, and with a certificate refuted.
#[derive(Clone, Copy, Debug, PartialEq, Eq)]
struct Ends {
    done: u32,
    refused: u32,
    refuted: u32,
}

const NONE: Ends = Ends {
    done: 0,
    refused: 0,
    refuted: 0,
};

// With one more run that ended so, which has to be one of the three ways.
fn with_end(ends: Ends, status: Status) -> Option<Ends> {
    match status {
        Status::Done => Some(Ends {
            done: ends.done.saturating_add(1),
            ..ends
        }),
        Status::Refused => Some(Ends {
            refused: ends.refused.saturating_add(1),
            ..ends
        }),
        Status::No => Some(Ends {
            refuted: ends.refuted.saturating_add(1),
            ..ends
        }),
        _ => None,
    }
}

// A line of a certificate is named, not before this one and not after the one behind the last.
fn names_line(rest: &str, first: u64) -> bool {
    let last = line_at(PROOF.text.as_bytes(), PROOF.text.len());
    for kind in ["Cut ", "Shape ", "Rest "] {
        if let Some(number) = rest.strip_prefix(kind)
            && let Ok(line) = number.trim().parse::<u64>()
        {
            return first <= line && line <= last;
        }
    }
    false
}

// The line names a fault of this file, one in a line from this one on where it is a certificate.
fn names_fault(file: File, line: &str, first: u64) -> bool {
    match line.strip_prefix(file.refused) {
        Some(rest) => file.name != PROOF.name || names_line(rest, first),
        None => false,
    }
}

// The line is one of those for the status. Only a certificate is refuted.
fn is_line_for(file: File, status: Status, line: &str, first: u64) -> bool {
    match status {
        Status::Done => line.starts_with(file.right),
        Status::Refused => names_fault(file, line, first),
        Status::No => file.name == PROOF.name && line.starts_with("no "),
        _ => false,
    }
}

// How the run ends for a file with a byte replaced. Its line fits its status.
fn end_of(alloc: Global, file: File, place: usize, other: u8) -> Result<Status, Fail> {
    let mut bytes = file.text.as_bytes().to_vec(alloc)?;
    if place < bytes.len() {
        bytes[place] = other_than(bytes[place], other);
    }
    let first = line_at(file.text.as_bytes(), place);
    let (status, line) = run_on(alloc, file, &bytes)?;
    if is_line_for(file, status, line.as_str(), first) && line.ends_with("\n") {
        Ok(status)
    } else {
        Err(Fail::new(format_args!("{status:?} with {line:?}")))
    }
}

// The ends with those of the runs for one place.
fn with_place(alloc: Global, file: File, place: usize, ends: Ends) -> Result<Ends, Fail> {
    let mut now = ends;
    for other in OTHERS {
        let status = end_of(alloc, file, place, other)?;
        let Some(next) = with_end(now, status) else {
            return Err(Fail::new("another end"));
        };
        now = next;
    }
    Ok(now)
}

// The ends of the runs for all places.
fn ends_of(alloc: Global, file: File) -> Result<Ends, Fail> {
    let mut ends = NONE;
    for place in 0..file.text.len() {
        ends = with_place(alloc, file, place, ends)?;
    }
    Ok(ends)
}

// The runs for a file end so often in each way.
fn must_end(alloc: Global, file: File, wanted: Ends) -> Result<(), Fail> {
    let found = ends_of(alloc, file)?;
    if found == wanted {
        Ok(())
    } else {
        Err(Fail::new(format_args!("{found:?}")))
    }
}

#[test]
fn a_changed_instance_is_right_or_has_a_fault(rt: HostRuntime) -> Result<(), Fail> {
    must_end(
        rt.alloc(),
        INSTANCE,
        Ends {
            done: 7,
            refused: 478,
            refuted: 0,
        },
    )
}

#[test]
fn a_changed_solution_is_right_or_has_a_fault(rt: HostRuntime) -> Result<(), Fail> {
    must_end(
        rt.alloc(),
        PLAN,
        Ends {
            done: 105,
            refused: 345,
            refuted: 0,
        },
    )
}

#[test]
fn a_changed_certificate_is_right_or_has_a_fault(rt: HostRuntime) -> Result<(), Fail> {
    must_end(
        rt.alloc(),
        PROOF,
        Ends {
            done: 1,
            refused: 711,
            refuted: 13,
        },
    )
}
