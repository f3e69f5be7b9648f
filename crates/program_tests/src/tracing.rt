// Runs of `trace` over stores and sinks in memory: each row an instance, the place of an input, and the line that is wanted.
use crate::runs::must_run;
use centre_run::Status;
use std::alloc::Global;
use std::test::Fail;

const SQUARE: &str =
    r#"{"instance_uid":"Q","points_x":[0,2,2,0],"points_y":[0,0,2,2],"triangulations":[[[0,2]],[[1,3]]]}"#;

const OCTAGON: &str =
    r#"{"instance_uid":"O","points_x":[8,7,4,1,-1,-4,-7,-8],"points_y":[1,4,7,8,8,7,4,1],"triangulations":[[[0,2],[0,3],[0,4],[0,5],[0,6]],[[1,3],[1,4],[1,5],[1,6],[1,7]]]}"#;

const FLAT: &str =
    r#"{"instance_uid":"Q","points_x":[0,1,2],"points_y":[0,1,2],"triangulations":[[]]}"#;

const FLIPS: [(&str, &str, &str); 4] = [
    (SQUARE, "0", "flips 0 bound 6\n"),
    (SQUARE, "1", "flips 1 bound 6\n"),
    (OCTAGON, "0", "flips 0 bound 28\n"),
    (OCTAGON, "1", "flips 5 bound 28\n"),
];

const FAULTS: [(&str, &str, &str); 4] = [
    (SQUARE, "2", "refused instance NoSuchInput 2\n"),
    (SQUARE, "255", "refused instance NoSuchInput 255\n"),
    ("[]", "2", "refused instance NotObject\n"),
    (FLAT, "2", "refused instance Collinear\n"),
];

// Each row ends so.
fn must_trace(alloc: Global, rows: &[(&str, &str, &str)], status: Status) -> Result<(), Fail> {
    for row in rows {
        must_run(
            alloc,
            &[("q.json", row.0)],
            &["trace", "q.json", row.1],
            status,
            row.2,
        )?;
    }
    Ok(())
}

// A run with these words over the square ends so and prints this.
fn must_answer(alloc: Global, words: &[&str], status: Status, line: &str) -> Result<(), Fail> {
    must_run(alloc, &[("q.json", SQUARE)], words, status, line)
}

#[test]
fn runs_have_their_flips(rt: HostRuntime) -> Result<(), Fail> {
    must_trace(rt.alloc(), &FLIPS, Status::Done)
}

#[test]
fn first_faults_are_named(rt: HostRuntime) -> Result<(), Fail> {
    must_trace(rt.alloc(), &FAULTS, Status::Refused)
}

#[test]
fn words_come_before_files(rt: HostRuntime) -> Result<(), Fail> {
    let alloc = rt.alloc();
    let refused = "words refused\n";
    must_answer(alloc, &["trace", "q.json", "256"], Status::Words, refused)?;
    must_answer(alloc, &["trace", "q.json", "x"], Status::Words, refused)?;
    must_answer(alloc, &["trace", "q.json"], Status::Words, refused)?;
    must_answer(alloc, &["trace", "x.json", "0"], Status::ReadFault, "")
}
