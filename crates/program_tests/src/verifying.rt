// Runs of `verify` over stores and sinks in memory: each row the files, and the line that is wanted.
use crate::runs::{VERIFY, must_run};
use centre_run::Status;
use std::alloc::Global;
use std::test::Fail;

const SQUARE: &str =
    r#"{"instance_uid":"Q","points_x":[0,2,2,0],"points_y":[0,0,2,2],"triangulations":[[[0,2]],[[1,3]]]}"#;

const SOLUTION: &str = r#"{"flips":[[],[[[1,3]]]],"instance_uid":"Q"}"#;

const CERTIFICATE: &str =
    "flipcentre-certificate 2\nuid 51\ninputs 2\nopening 1\ntotal 1\nbound 1\njournal 0\nrows 1\nrow 0 1 1\ncrosses first 0 2 1\nmet 1\nround 0 2\npack 1 0\nend\n";

const FLAT: &str =
    r#"{"instance_uid":"Q","points_x":[0,1,2],"points_y":[0,1,2],"triangulations":[[]]}"#;

const WRONG_CERTIFICATES: [(&str, &str); 5] = [
    (
        "flipcentre-certificate 2\nuid 51\ninputs 2\nopening 1\ntotal 1\nbound 2\njournal 0\nrows 1\nrow 0 1 1\ncrosses first 0 2 1\nmet 1\nround 0 2\npack 1 0\nend\n",
        "no BoundWrong 2 1\n",
    ),
    (
        "flipcentre-certificate 2\nuid 52\ninputs 2\nopening 1\ntotal 0\nbound 2\njournal 0\nrows 0\npack 1 0\nend\n",
        "no UidCertificate\n",
    ),
    (
        "flipcentre-certificate 2\nuid 51\ninputs 2\nopening 1\ntotal 0\nbound 1\njournal 0\nrows 0\npack 1 0\nend\n",
        "no TotalWrong 0 1\n",
    ),
    (
        "flipcentre-certificate 2\nuid 51\ninputs 2\nopening 1\ntotal 1\nbound 0\njournal 0\nrows 0\npack 1 1\nend\n",
        "no NotPermutation 1\n",
    ),
    (
        "flipcentre-certificate 3\nuid 51\ninputs 2 3\nopening 1\ntotal 1\nbound 0\njournal 0\nrows 0\npack 1 0 2\nend\n",
        "no CopyCount 3 2\n",
    ),
];

const WRONG_SOLUTIONS: [(&str, &str); 4] = [
    (
        r#"{"flips":[[],[[[1,3]]]],"instance_uid":"P"}"#,
        "no UidSolution\n",
    ),
    (
        r#"{"flips":[[]],"instance_uid":"Q"}"#,
        "no InputCount 1 2\n",
    ),
    (
        r#"{"flips":[[[[1,3]]],[]],"instance_uid":"Q"}"#,
        "no Round 0 NotEdge 0 1-3\n",
    ),
    (
        r#"{"flips":[[],[]],"instance_uid":"Q"}"#,
        "no NoCommonCentre 1\n",
    ),
];

const NO_CERTIFICATES: [(&str, &str); 4] = [
    ("", "refused certificate Cut 1\n"),
    (
        "flipcentre-certificate 4\n",
        "refused certificate Shape 1\n",
    ),
    (
        "flipcentre-certificate 2\nuid 51\ninputs 2\nopening 1\ntotal 1\nbound 1\njournal 0\nrows 1\nrow 0 1 1\ncrosses first 0 2 1\nmet 1\nround 0 2\npack 1 0\n",
        "refused certificate Cut 14\n",
    ),
    (
        "flipcentre-certificate 2\nuid 51\ninputs 2\nopening 1\ntotal 1\nbound 1\njournal 0\nrows 0\npack 1 0\nend\nend\n",
        "refused certificate Rest 11\n",
    ),
];

// A run of `verify` over these three files ends so and prints this.
fn must_verify(
    alloc: Global,
    files: (&str, &str, &str),
    status: Status,
    line: &str,
) -> Result<(), Fail> {
    let held = [("i.json", files.0), ("s.json", files.1), ("c.txt", files.2)];
    must_run(alloc, &held, &VERIFY, status, line)
}

// So does one over the square with its solution and this certificate.
pub(crate) fn must_judge(
    alloc: Global,
    certificate: &str,
    status: Status,
    line: &str,
) -> Result<(), Fail> {
    must_verify(alloc, (SQUARE, SOLUTION, certificate), status, line)
}

// Each certificate ends so, with the line beside it.
fn must_judge_each(alloc: Global, rows: &[(&str, &str)], status: Status) -> Result<(), Fail> {
    for row in rows {
        must_judge(alloc, row.0, status, row.1)?;
    }
    Ok(())
}

// Each solution of the square has a fault, which is the line beside it.
fn must_deny_each(alloc: Global, rows: &[(&str, &str)]) -> Result<(), Fail> {
    for row in rows {
        must_verify(alloc, (SQUARE, row.0, CERTIFICATE), Status::No, row.1)?;
    }
    Ok(())
}

// A run with these words over the three files of the square ends so and prints this.
fn must_answer(alloc: Global, words: &[&str], status: Status, line: &str) -> Result<(), Fail> {
    let held = [
        ("i.json", SQUARE),
        ("s.json", SOLUTION),
        ("c.txt", CERTIFICATE),
    ];
    must_run(alloc, &held, words, status, line)
}

#[test]
fn the_square_is_shown(rt: HostRuntime) -> Result<(), Fail> {
    must_judge(
        rt.alloc(),
        CERTIFICATE,
        Status::Done,
        "yes total 1 bound 1\n",
    )
}

#[test]
fn wrong_certificates_have_a_first_fault(rt: HostRuntime) -> Result<(), Fail> {
    must_judge_each(rt.alloc(), &WRONG_CERTIFICATES, Status::No)
}

#[test]
fn a_round_that_names_an_edge_twice_is_refused(rt: HostRuntime) -> Result<(), Fail> {
    must_judge(
        rt.alloc(),
        "flipcentre-certificate 2\nuid 51\ninputs 2\nopening 1\ntotal 1\nbound 1\njournal 0\nrows 1\nrow 0 1 1\ncrosses first 0 2 1\nmet 1\nround 0 2 0 2\npack 1 0\nend\n",
        Status::No,
        "no RowWrong 0 1 MetRound Twice 0 0-2\n",
    )
}

#[test]
fn wrong_solutions_have_a_first_fault(rt: HostRuntime) -> Result<(), Fail> {
    must_deny_each(rt.alloc(), &WRONG_SOLUTIONS)
}

#[test]
fn texts_that_are_no_certificate_are_refused(rt: HostRuntime) -> Result<(), Fail> {
    must_judge_each(rt.alloc(), &NO_CERTIFICATES, Status::Refused)
}

// Three texts that have a fault, the first of which is this.
fn must_refuse(alloc: Global, files: (&str, &str, &str), line: &str) -> Result<(), Fail> {
    must_verify(alloc, files, Status::Refused, line)
}

#[test]
fn faults_of_files_are_looked_for_in_order(rt: HostRuntime) -> Result<(), Fail> {
    let alloc = rt.alloc();
    must_refuse(alloc, ("[]", "[]", ""), "refused instance NotObject\n")?;
    must_refuse(alloc, (FLAT, "[]", ""), "refused solution NotObject\n")?;
    must_refuse(alloc, (FLAT, SOLUTION, ""), "refused certificate Cut 1\n")?;
    must_refuse(
        alloc,
        (FLAT, SOLUTION, CERTIFICATE),
        "refused instance Collinear\n",
    )
}

// A run with these words over the square's files has no file to read.
fn must_miss(alloc: Global, words: &[&str]) -> Result<(), Fail> {
    must_answer(alloc, words, Status::ReadFault, "")
}

#[test]
fn all_three_files_are_read(rt: HostRuntime) -> Result<(), Fail> {
    let alloc = rt.alloc();
    must_miss(alloc, &["verify", "x", "s.json", "c.txt"])?;
    must_miss(alloc, &["verify", "i.json", "x", "c.txt"])?;
    must_miss(alloc, &["verify", "i.json", "s.json", "x"])?;
    must_answer(
        alloc,
        &["verify", "i.json", "s.json"],
        Status::Words,
        "words refused\n",
    )?;
    must_answer(
        alloc,
        &["verify", "i.json", "i.json", "i.json"],
        Status::Refused,
        "refused solution Missing flips\n",
    )
}
