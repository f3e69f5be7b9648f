// Runs of `bench`: words, and the line that is wanted.
use crate::runs::must_run;
use centre_run::Status;
use std::alloc::Global;
use std::test::Fail;

const LINES: [([&str; 4], &str); 4] = [
    (["bench", "7", "3", "1"], "opening 0 total 0 bound 0\n"),
    (["bench", "8", "3", "2"], "opening 0 total 0 bound 0\n"),
    (["bench", "7", "100", "6"], "opening 68 total 55 bound 18\n"),
    (
        ["bench", "007", "100", "06"],
        "opening 68 total 55 bound 18\n",
    ),
];

const PAST: [[&str; 4]; 6] = [
    ["bench", "18446744073709551616", "3", "1"],
    ["bench", "7", "2", "1"],
    ["bench", "7", "16385", "1"],
    ["bench", "7", "3", "0"],
    ["bench", "7", "3", "257"],
    ["bench", "7", "3", "x"],
];

// The words are those of no command.
fn must_refuse(alloc: Global, words: &[&str]) -> Result<(), Fail> {
    must_run(alloc, &[], words, Status::Words, "words refused\n")
}

#[test]
fn totals_and_bounds_of_generated_instances(rt: HostRuntime) -> Result<(), Fail> {
    for row in &LINES {
        must_run(rt.alloc(), &[], &row.0, Status::Done, row.1)?;
    }
    Ok(())
}

#[test]
fn numbers_past_their_ranges_are_refused(rt: HostRuntime) -> Result<(), Fail> {
    for words in &PAST {
        must_refuse(rt.alloc(), words)?;
    }
    Ok(())
}

#[test]
fn all_three_numbers_are_wanted(rt: HostRuntime) -> Result<(), Fail> {
    must_refuse(rt.alloc(), &["bench", "7", "3"])?;
    must_refuse(rt.alloc(), &["bench", "7", "3", "1", "1"])?;
    must_refuse(rt.alloc(), &["bench", "7", "3", "1", "--seed", "7"])
}
