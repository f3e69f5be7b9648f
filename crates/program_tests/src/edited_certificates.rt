// Runs of `verify` over certificates of a square that differ from a right one in a line or two, and what they print.
use crate::verifying::must_judge;
use centre_run::Status;
use std::alloc::{AllocError, Global};
use std::test::Fail;

const LINES: [&str; 14] = [
    "flipcentre-certificate 2\n",
    "uid 51\n",
    "inputs 2\n",
    "opening 1\n",
    "total 1\n",
    "bound 1\n",
    "journal 0\n",
    "rows 1\n",
    "row 0 1 1\n",
    "crosses first 0 2 1\n",
    "met 1\n",
    "round 0 2\n",
    "pack 1 0\n",
    "end\n",
];

// Text put in place of a line, which counts from 1. No line has place 0.
type Edit<'a> = (usize, &'a str);

const NO_EDIT: Edit<'static> = (0, "");

// The lines with others put in place of some.
fn edited(alloc: Global, first: Edit, second: Edit) -> Result<String, AllocError> {
    let mut text = String::new(alloc);
    for (i, line) in LINES.iter().enumerate() {
        let place = i + 1;
        if place == first.0 {
            text.push_str(first.1)?;
        } else if place == second.0 {
            text.push_str(second.1)?;
        } else {
            text.push_str(line)?;
        }
    }
    Ok(text)
}

const RIGHT: [(Edit<'static>, Edit<'static>); 3] = [
    ((1, "flipcentre-certificate 1\n"), NO_EDIT),
    (NO_EDIT, NO_EDIT),
    ((1, "flipcentre-certificate 3\n"), (3, "inputs 2 2\n")),
];

const OUT_OF_FORM: [(Edit<'static>, &str); 8] = [
    (
        (1, "flipcentre-certificate 9\n"),
        "refused certificate Shape 1\n",
    ),
    ((2, "uid 5\n"), "refused certificate Shape 2\n"),
    ((2, "uid FF\n"), "refused certificate Shape 2\n"),
    ((2, "uid ff\n"), "refused certificate Shape 2\n"),
    ((3, "inputs 3\n"), "refused certificate Shape 13\n"),
    ((6, "bound 01\n"), "refused certificate Shape 6\n"),
    ((8, "rows 0\n"), "refused certificate Shape 9\n"),
    ((14, "end\nx"), "refused certificate Rest 15\n"),
];

const NOT_SO: [(Edit<'static>, Edit<'static>, &str); 9] = [
    ((2, "uid 52\n"), NO_EDIT, "no UidCertificate\n"),
    (
        (3, "inputs 3\n"),
        (13, "pack 1 0 2\n"),
        "no InputCount 3 2\n",
    ),
    (
        (9, "row 0 1 2\n"),
        NO_EDIT,
        "no RowWrong 0 1 LowerWrong 2 1\n",
    ),
    ((9, "row 1 0 1\n"), NO_EDIT, "no RowWrong 1 0 BadPair\n"),
    (
        (10, "crosses first 1 3 1\n"),
        NO_EDIT,
        "no RowWrong 0 1 EdgeNotThere 1-3\n",
    ),
    (
        (10, "crosses first 0 2 2\n"),
        NO_EDIT,
        "no RowWrong 0 1 CountWrong 2 1\n",
    ),
    (
        (11, "met 2\n"),
        (12, "round 0 2\nround\n"),
        "no RowWrong 0 1 MetLength 2 1\n",
    ),
    ((12, "round\n"), NO_EDIT, "no RowWrong 0 1 MetEnd 0-2\n"),
    (
        (12, "round 0 1\n"),
        NO_EDIT,
        "no RowWrong 0 1 MetRound NotConvex 0 0-1\n",
    ),
];

const ENDS_NOT_SO: [(Edit<'static>, Edit<'static>, &str); 5] = [
    (
        (10, "refuted 400001 0\n"),
        NO_EDIT,
        "no RowWrong 0 1 NoCnf\n",
    ),
    (
        (10, "refuted 0 1\n1 0 1 0\n"),
        NO_EDIT,
        "no RowWrong 0 1 Log BadId 0\n",
    ),
    ((11, "spent 2 0\n"), (12, ""), "no RowWrong 0 1 EndK 2 1\n"),
    (
        (11, "toolarge 1 500000\n"),
        (12, ""),
        "no RowWrong 0 1 TooLargeWrong 500000 0\n",
    ),
    (
        (11, "manypoints 65\n"),
        (12, ""),
        "no RowWrong 0 1 PointsWrong 4\n",
    ),
];

// The certificate with these edits ends so, with this line.
fn must_end_so(alloc: Global, edits: (Edit, Edit), status: Status, line: &str) -> Result<(), Fail> {
    let certificate = edited(alloc, edits.0, edits.1)?;
    must_judge(alloc, certificate.as_str(), status, line)
}

// Each row's edits leave a certificate that is refuted with the row's line.
fn must_refute_each(alloc: Global, rows: &[(Edit, Edit, &str)]) -> Result<(), Fail> {
    for row in rows {
        must_end_so(alloc, (row.0, row.1), Status::No, row.2)?;
    }
    Ok(())
}

// Each row's edit leaves a text that is refused with the row's line.
fn must_refuse_each(alloc: Global, rows: &[(Edit, &str)]) -> Result<(), Fail> {
    for row in rows {
        must_end_so(alloc, (row.0, NO_EDIT), Status::Refused, row.1)?;
    }
    Ok(())
}

// Each row's edits leave a certificate that is accepted.
fn must_accept_each(alloc: Global, rows: &[(Edit, Edit)]) -> Result<(), Fail> {
    for row in rows {
        must_end_so(alloc, (row.0, row.1), Status::Done, "yes total 1 bound 1\n")?;
    }
    Ok(())
}

#[test]
fn each_version_of_a_right_certificate_is_accepted(rt: HostRuntime) -> Result<(), Fail> {
    must_accept_each(rt.alloc(), &RIGHT)
}

#[test]
fn lines_out_of_form_are_refused(rt: HostRuntime) -> Result<(), Fail> {
    must_refuse_each(rt.alloc(), &OUT_OF_FORM)
}

#[test]
fn lines_that_say_what_is_not_are_named(rt: HostRuntime) -> Result<(), Fail> {
    must_refute_each(rt.alloc(), &NOT_SO)
}

#[test]
fn ends_of_rows_that_are_not_so_are_named(rt: HostRuntime) -> Result<(), Fail> {
    must_refute_each(rt.alloc(), &ENDS_NOT_SO)
}
