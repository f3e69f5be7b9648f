// The certificate of a square, and the first fault of certificates and solutions that differ from it in a little.
ghost use Rattle.std.specs.Prelude.{◌≡◌, length, IfOk};

use cert_text::read_cert;
use edge_table::{Edge, EdgeSeq, Rounds, RoundsList};
use geo_orient::Point;
use replay::RoundFault;
use rup_check::LogFault;
use solution_json::Solution;
use std::alloc::{AllocError, Global};
use std::process::Abort;
use std::sync::Arc;
use std::test::Fail;
use tri_check::{
    CheckFault, Instance, PairList, PointList, RawInputs, RawInstance, RawPair, Uid, WeightList,
};
use verify_core::*;

// A certificate of the two triangulations of a square.
const LINES: [&str; 14] = [
    "flipcentre-certificate 1\n",
    "uid 51\n",
    "inputs 2\n",
    "opening 1\n",
    "total 1\n",
    "bound 1\n",
    "journal 0\n",
    "rows 1\n",
    "row 0 1 1\n",
    "crosses first 0 2 1\n",
    "met 1\n",
    "round 0 2\n",
    "pack 1 0\n",
    "end\n",
];

// Lines put in place of one, which counts from 1. No line has place 0.
type Edit<'a> = (usize, &'a str);

const NO_EDIT: Edit<'static> = (0, "");

// The lines with others put in place of some.
fn edited(alloc: Global, first: Edit, second: Edit) -> Result<String, AllocError> {
    let mut text = String::new(alloc);
    for (i, line) in LINES.iter().enumerate() {
        let place = i + 1;
        if place == first.0 {
            text.push_str(first.1)?;
        } else if place == second.0 {
            text.push_str(second.1)?;
        } else {
            text.push_str(line)?;
        }
    }
    Ok(text)
}

fn corners(alloc: Global) -> Result<PointList, AllocError> {
    PointList::of(
        alloc,
        &[
            Point { x: 0, y: 0 },
            Point { x: 2, y: 0 },
            Point { x: 2, y: 2 },
            Point { x: 0, y: 2 },
        ],
    )
}

fn diagonal(alloc: Global, a: i64, b: i64) -> Result<PairList, AllocError> {
    PairList::of(alloc, &[RawPair { a, b }])
}

// The two triangulations of a square, with these weights.
fn square(alloc: Global, weights: [i64; 2]) -> Result<Arc<Instance>, CheckFault> {
    let mut inputs = RawInputs::make(alloc);
    inputs.push(diagonal(alloc, 0, 2)?)?;
    inputs.push(diagonal(alloc, 1, 3)?)?;
    let raw = RawInstance {
        uid: Uid::of(alloc, "Q")?,
        points: corners(alloc)?,
        inputs,
        weights: WeightList::of(alloc, &weights)?,
    };
    Instance::check(alloc, raw)
}

// A round of the edge for input 0, where there is one, and none for the other inputs.
fn solution(
    alloc: Global,
    uid: &str,
    inputs: u32,
    e: Option<Edge>,
) -> Result<Solution, AllocError> {
    let mut rounds = Rounds::make(alloc);
    if let Some(e) = e {
        rounds.push(EdgeSeq::of(alloc, &[e])?)?;
    }
    let mut lists = RoundsList::make(alloc);
    lists.push(rounds)?;
    for _ in 1..inputs {
        lists.push(Rounds::make(alloc))?;
    }
    Ok(Solution {
        uid: Uid::of(alloc, uid)?,
        lists,
    })
}

// What is answered for the certificate with these lines.
fn answer(
    alloc: Global,
    inst: &Instance,
    s: &Solution,
    first: Edit,
    second: Edit,
) -> Result<Result<Yes, VerifyFault>, AllocError> {
    let text = edited(alloc, first, second)?;
    match read_cert(alloc, text.as_bytes()) {
        Ok(cert) => Ok(verify(alloc, inst, s, &cert)),
        Err(_) => Err(AllocError),
    }
}

fn edge(rt: &impl Abort, a: u32, b: u32) -> Edge {
    Edge::of(a, b).expect(rt, "two points")
}

#[test]
fn the_square_is_shown(rt: HostRuntime) -> Result<(), Fail> {
    let inst = square(rt.alloc(), [1, 1])?;
    let s = solution(rt.alloc(), "Q", 2, Some(edge(&rt, 0, 2)))?;
    let rows: [(Edit, Result<Yes, VerifyFault>); 2] = [
        (NO_EDIT, Ok(Yes { total: 1, bound: 1 })),
        (
            (6, "bound 2\n"),
            Err(VerifyFault::No(No::BoundWrong { said: 2, is: 1 })),
        ),
    ];
    for (edit, expected) in rows {
        let got = answer(rt.alloc(), &inst, &s, edit, NO_EDIT)?;
        assert_eq!(rt; got, expected);
    }
    Ok(())
}

// The first lines of certificates of later versions.
const SECOND: Edit<'static> = (1, "flipcentre-certificate 2\n");

const THIRD: Edit<'static> = (1, "flipcentre-certificate 3\n");

// What is answered where all is shown.
fn shown() -> Result<Yes, VerifyFault> {
    Ok(Yes { total: 1, bound: 1 })
}

#[test]
fn the_square_is_shown_in_each_version(rt: HostRuntime) -> Result<(), Fail> {
    let inst = square(rt.alloc(), [1, 1])?;
    let s = solution(rt.alloc(), "Q", 2, Some(edge(&rt, 0, 2)))?;
    let rows: [(Edit, Edit, Result<Yes, VerifyFault>); 3] = [
        (NO_EDIT, NO_EDIT, shown()),
        (SECOND, NO_EDIT, shown()),
        (THIRD, (3, "inputs 2 2\n"), shown()),
    ];
    for (version, counts, expected) in rows {
        let got = answer(rt.alloc(), &inst, &s, version, counts)?;
        assert_eq!(rt; got, expected);
    }
    Ok(())
}

// Evidence of the formula of no rounds: a log that refutes the whole one, which has 13 clauses, and a log that refutes the pruned one, which has 10.
const WHOLE: Edit<'static> = (10, "refuted 0 1\n14 0 2 8 0\n");

const PRUNED: Edit<'static> = (10, "refuted 0 1\n11 0 2 0\n");

// What is answered where the log is one of another formula.
fn refused() -> Result<Yes, VerifyFault> {
    let other = RowWhy::Log(LogFault::BadId(0));
    Err(VerifyFault::No(No::RowWrong(0, 1, other)))
}

#[test]
fn a_log_is_one_of_the_formula_of_its_version(rt: HostRuntime) -> Result<(), Fail> {
    let inst = square(rt.alloc(), [1, 1])?;
    let s = solution(rt.alloc(), "Q", 2, Some(edge(&rt, 0, 2)))?;
    let rows: [(Edit, Edit, Result<Yes, VerifyFault>); 4] = [
        (NO_EDIT, WHOLE, shown()),
        (NO_EDIT, PRUNED, refused()),
        (SECOND, WHOLE, refused()),
        (SECOND, PRUNED, shown()),
    ];
    for (version, log, expected) in rows {
        let got = answer(rt.alloc(), &inst, &s, version, log)?;
        assert_eq!(rt; got, expected);
    }
    Ok(())
}

#[test]
fn an_edited_certificate_is_refused(rt: HostRuntime) -> Result<(), Fail> {
    let inst = square(rt.alloc(), [1, 1])?;
    let s = solution(rt.alloc(), "Q", 2, Some(edge(&rt, 0, 2)))?;
    let rows: [(Edit, Edit, No); 5] = [
        ((2, "uid 52\n"), NO_EDIT, No::UidCertificate),
        (
            (3, "inputs 3\n"),
            (13, "pack 1 0 2\n"),
            No::InputCount { said: 3, is: 2 },
        ),
        ((5, "total 0\n"), NO_EDIT, No::TotalWrong { said: 0, is: 1 }),
        ((13, "pack 1 1\n"), NO_EDIT, No::NotPermutation(1)),
        (
            (9, "row 1 0 1\n"),
            NO_EDIT,
            No::RowWrong(1, 0, RowWhy::BadPair),
        ),
    ];
    for (first, second, no) in rows {
        let got = answer(rt.alloc(), &inst, &s, first, second)?;
        assert_eq!(rt; got, Err(VerifyFault::No(no)));
    }
    Ok(())
}

#[test]
fn an_edited_row_is_refused(rt: HostRuntime) -> Result<(), Fail> {
    let inst = square(rt.alloc(), [1, 1])?;
    let s = solution(rt.alloc(), "Q", 2, Some(edge(&rt, 0, 2)))?;
    let rows: [(Edit, Edit, RowWhy); 13] = [
        (
            (10, "crosses first 1 3 1\n"),
            NO_EDIT,
            RowWhy::EdgeNotThere(edge(&rt, 1, 3)),
        ),
        (
            (10, "crosses first 0 2 2\n"),
            NO_EDIT,
            RowWhy::CountWrong { said: 2, is: 1 },
        ),
        ((10, "refuted 400001 0\n"), NO_EDIT, RowWhy::NoCnf),
        (
            (10, "refuted 0 0\n"),
            NO_EDIT,
            RowWhy::Log(LogFault::NoEmptyClause),
        ),
        (
            (9, "row 0 1 2\n"),
            NO_EDIT,
            RowWhy::LowerWrong { said: 2, is: 1 },
        ),
        (
            (12, "round 0 1\n"),
            NO_EDIT,
            RowWhy::MetRound(RoundFault::NotConvex(0, edge(&rt, 0, 1))),
        ),
        ((12, "round\n"), NO_EDIT, RowWhy::MetEnd(edge(&rt, 0, 2))),
        (
            (11, "met 2\n"),
            (12, "round 0 2\nround\n"),
            RowWhy::MetLength { said: 2, is: 1 },
        ),
        (
            (11, "spent 2 0\n"),
            (12, ""),
            RowWhy::EndK { said: 2, is: 1 },
        ),
        (
            (11, "spent 1 1\n"),
            (12, "1 0 0\n"),
            RowWhy::Log(LogFault::BadId(0)),
        ),
        (
            (11, "toolarge 1 400001\n"),
            (12, ""),
            RowWhy::TooLargeWrong {
                said: 400_001,
                is: 0,
            },
        ),
        ((11, "manypoints 4\n"), (12, ""), RowWhy::PointsWrong(4)),
        ((11, "manypoints 65\n"), (12, ""), RowWhy::PointsWrong(4)),
    ];
    for (first, second, why) in rows {
        let got = answer(rt.alloc(), &inst, &s, first, second)?;
        assert_eq!(rt; got, Err(VerifyFault::No(No::RowWrong(0, 1, why))));
    }
    Ok(())
}

#[test]
fn an_edited_solution_is_refused(rt: HostRuntime) -> Result<(), Fail> {
    let inst = square(rt.alloc(), [1, 1])?;
    let rows: [(&str, u32, Option<Edge>, No); 4] = [
        ("R", 2, Some(edge(&rt, 0, 2)), No::UidSolution),
        (
            "Q",
            1,
            Some(edge(&rt, 0, 2)),
            No::InputCount { said: 1, is: 2 },
        ),
        (
            "Q",
            2,
            Some(edge(&rt, 1, 3)),
            No::Round(0, RoundFault::NotEdge(0, edge(&rt, 1, 3))),
        ),
        ("Q", 2, None, No::NoCommonCentre(1)),
    ];
    for (uid, inputs, e, no) in rows {
        let s = solution(rt.alloc(), uid, inputs, e)?;
        let got = answer(rt.alloc(), &inst, &s, NO_EDIT, NO_EDIT)?;
        assert_eq!(rt; got, Err(VerifyFault::No(no)));
    }
    Ok(())
}

#[test]
fn copies_are_counted(rt: HostRuntime) -> Result<(), Fail> {
    let inst = square(rt.alloc(), [2, 2])?;
    let s = solution(rt.alloc(), "Q", 2, Some(edge(&rt, 0, 2)))?;
    let got = answer(rt.alloc(), &inst, &s, NO_EDIT, NO_EDIT)?;
    assert_eq!(rt; got, Err(VerifyFault::No(No::CopyCount { said: 2, is: 4 })));
    Ok(())
}
