// Runs over stores and sinks in memory: each row a file, the words, and the status and line that are wanted.
ghost use Rattle.std.specs.Prelude.{◌≡◌, length, IfOk};

use crate::runs::{SCORE, must_end, must_print, must_run, store_of};
use centre_run::Status;
use geo_orient::Point;
use std::alloc::{AllocError, Global};
use std::test::Fail;
use tri_check::{
    Bad, CheckFault, Instance, PairList, PointList, RawInputs, RawInstance, RawPair, Uid,
};

const SQUARE: &str =
    r#"{"content_type":"CGSHOP2026_Instance","instance_uid":"Q","points_x":[0,2,2,0],"points_y":[0,0,2,2],"triangulations":[[[0,1],[1,2],[2,3],[0,3],[0,2]],[[0,1],[1,2],[2,3],[0,3],[1,3]]]}"#;

const VALID: [(&str, &str); 4] = [
    (
        r#"{"instance_uid":"Q","points_x":[0,1,2,1],"points_y":[0,0,0,2],"triangulations":[[[1,3]]]}"#,
        "valid points 4 inputs 1\n",
    ),
    (
        r#"{"instance_uid":"Q","points_x":[0,536870912,536870912,0],"points_y":[0,0,536870912,536870912],"triangulations":[[[0,2]]]}"#,
        "valid points 4 inputs 1\n",
    ),
    (
        r#"{"instance_uid":"Q","points_x":[0,2,2,0],"points_y":[0,0,2,2],"triangulations":[[[0,2]],[[3,1],[3,1]]]}"#,
        "valid points 4 inputs 2\n",
    ),
    (
        r#"{"more":[1.5],"instance_uid":"Q","points_x":[0,2,2,0],"points_y":[0,0,2,2],"triangulations":[[[0,2]]]}"#,
        "valid points 4 inputs 1\n",
    ),
];

const WITHOUT_FORM: [(&str, &str); 9] = [
    (
        r#"{"instance_uid":"Q","points_x":[0,1.5,2,0],"points_y":[0,0,2,2],"triangulations":[[]]}"#,
        "refused instance NotInteger points_x 1\n",
    ),
    (
        r#"{"instance_uid":"Q","points_x":[0,2,2,0],"points_y":[0,0,2],"triangulations":[[]]}"#,
        "refused instance LengthMismatch 4 3\n",
    ),
    (r#""#, "refused instance NotJson\n"),
    (
        r#"{"instance_uid":"Q","points_x":[0"#,
        "refused instance NotJson\n",
    ),
    (r#"[]"#, "refused instance NotObject\n"),
    (r#"{}"#, "refused instance Missing instance_uid\n"),
    (
        r#"{"instance_uid":"Q","points_x":[9223372036854775808],"points_y":[0],"triangulations":[[]]}"#,
        "refused instance NotInteger points_x 0\n",
    ),
    (
        r#"{"instance_uid":"Q","points_x":[0,2,2,0],"points_y":[0,0,2,2],"triangulations":{}}"#,
        "refused instance WrongType triangulations\n",
    ),
    (
        r#"{"instance_uid":"Q","points_x":[0,2,2,0],"points_y":[0,0,2,2],"triangulations":[[[0,2]],[[1,2],[0,1.0]]]}"#,
        "refused instance NotInteger triangulations 5\n",
    ),
];

const NO_INSTANCE: [(&str, &str); 11] = [
    (
        r#"{"instance_uid":"Q","points_x":[0,536870912,536870913,0],"points_y":[0,0,536870912,536870912],"triangulations":[[[0,2]]]}"#,
        "refused instance CoordinateRange 2\n",
    ),
    (
        r#"{"instance_uid":"Q","points_x":[0,1,2],"points_y":[0,1,2],"triangulations":[[]]}"#,
        "refused instance Collinear\n",
    ),
    (
        r#"{"instance_uid":"Q","points_x":[0,1],"points_y":[0,1],"triangulations":[[]]}"#,
        "refused instance TooFewPoints 2\n",
    ),
    (
        r#"{"instance_uid":"Q","points_x":[0,2,2,0],"points_y":[0,0,2,2],"triangulations":[]}"#,
        "refused instance NoInput\n",
    ),
    (
        r#"{"instance_uid":"Q","points_x":[0,2,2,0],"points_y":[0,0,2,2],"triangulations":[[[0,2],[1,3]]]}"#,
        "refused instance Crossing 0 0-2 1-3\n",
    ),
    (
        r#"{"instance_uid":"Q","points_x":[0,2,2,0],"points_y":[0,0,2,2],"triangulations":[[]]}"#,
        "refused instance OpenSide 0 0-1\n",
    ),
    (
        r#"{"instance_uid":"Q","points_x":[0,2,2,0],"points_y":[0,0,2,2],"triangulations":[[[0,7]]]}"#,
        "refused instance BadVertex 0 0\n",
    ),
    (
        r#"{"instance_uid":"Q","points_x":[0,2,2,0],"points_y":[0,0,2,2],"triangulations":[[[1,1]]]}"#,
        "refused instance Loop 0 0\n",
    ),
    (
        r#"{"instance_uid":"Q","points_x":[0,2,2,0,1],"points_y":[0,0,2,2,1],"triangulations":[[]]}"#,
        "refused instance LonePoint 0 4\n",
    ),
    (
        r#"{"instance_uid":"Q","points_x":[0,1,2,1],"points_y":[0,0,0,2],"triangulations":[[[1,3],[0,2]]]}"#,
        "refused instance Blocked 0 0-2 1\n",
    ),
    (
        r#"{"instance_uid":"Q","points_x":[0,2,2,0],"points_y":[0,0,2,0],"triangulations":[[]]}"#,
        "refused instance RepeatedPoint 0 3\n",
    ),
];

const TWO_FAULTS: [(&str, &str); 13] = [
    (
        r#"{"instance_uid":"Q","points_x":[536870913,1],"points_y":[0,1],"triangulations":[]}"#,
        "refused instance CoordinateRange 0\n",
    ),
    (
        r#"{"instance_uid":"Q","points_x":[0,0],"points_y":[0,0],"triangulations":[]}"#,
        "refused instance TooFewPoints 2\n",
    ),
    (
        r#"{"instance_uid":"Q","points_x":[0,0,1],"points_y":[0,0,1],"triangulations":[]}"#,
        "refused instance RepeatedPoint 0 1\n",
    ),
    (
        r#"{"instance_uid":"Q","points_x":[0,1,2],"points_y":[0,1,2],"triangulations":[]}"#,
        "refused instance Collinear\n",
    ),
    (
        r#"{"instance_uid":"Q","points_x":[0,2,2,0],"points_y":[0,0,2,2],"triangulations":[[[1,1],[0,7]]]}"#,
        "refused instance BadVertex 0 1\n",
    ),
    (
        r#"{"instance_uid":"Q","points_x":[0,1,2,1],"points_y":[0,0,0,2],"triangulations":[[[0,2],[1,1]]]}"#,
        "refused instance Loop 0 1\n",
    ),
    (
        r#"{"instance_uid":"Q","points_x":[0,1,2,1,3],"points_y":[0,0,0,2,3],"triangulations":[[[0,2],[1,3],[1,4],[2,3]]]}"#,
        "refused instance Blocked 0 0-2 1\n",
    ),
    (
        r#"{"instance_uid":"Q","points_x":[0,4,4,0,3],"points_y":[0,0,4,4,2],"triangulations":[[[0,2],[1,3]]]}"#,
        "refused instance Crossing 0 0-2 1-3\n",
    ),
    (
        r#"{"instance_uid":"Q","points_x":[0,4,4,0,2],"points_y":[0,0,4,4,1],"triangulations":[[]]}"#,
        "refused instance LonePoint 0 4\n",
    ),
    (
        r#"{"instance_uid":"Q","points_x":[0,2,2,0],"points_y":[0,0,2,2],"triangulations":[[[0,2],[1,3]],[[0,7]]]}"#,
        "refused instance Crossing 0 0-2 1-3\n",
    ),
    (
        r#"{"points_x":1}"#,
        "refused instance Missing instance_uid\n",
    ),
    (
        r#"{"instance_uid":1,"points_x":[0.5],"points_y":[],"triangulations":1}"#,
        "refused instance WrongType instance_uid\n",
    ),
    (
        r#"{"instance_uid":"Q","points_x":[0.5],"points_y":[],"triangulations":[[]]}"#,
        "refused instance NotInteger points_x 0\n",
    ),
];

const READ: [(&str, u64, Status, &str); 5] = [
    ("q.json", 9, Status::Done, "valid points 4 inputs 2\n"),
    ("r.json", 9, Status::ReadFault, ""),
    ("q.json", 0, Status::ReadFault, ""),
    ("-q.json", 9, Status::Words, "words refused\n"),
    ("", 9, Status::Words, "words refused\n"),
];

// A run of `check` on this file ends so and prints this, where the store fails at this call.
fn must_check(
    alloc: Global,
    text: &str,
    failing: u64,
    name: &str,
    status: Status,
    line: &str,
) -> Result<(), Fail> {
    let mut store = store_of(alloc, &[("q.json", text)])?;
    store.fail_at(failing, 0)?;
    must_end(alloc, &mut store, &["check", name], status, line)
}

// Each text ends so, with the line beside it.
fn must_check_each(alloc: Global, rows: &[(&str, &str)], status: Status) -> Result<(), Fail> {
    for row in rows {
        must_check(alloc, row.0, 9, "q.json", status, row.1)?;
    }
    Ok(())
}

// For each row the name that is asked for and the call that fails, where the square stands under `q.json`.
fn must_read_each(alloc: Global, rows: &[(&str, u64, Status, &str)]) -> Result<(), Fail> {
    for row in rows {
        must_check(alloc, SQUARE, row.1, row.0, row.2, row.3)?;
    }
    Ok(())
}

#[test]
fn valid_files_are_counted(rt: HostRuntime) -> Result<(), Fail> {
    must_check_each(rt.alloc(), &VALID, Status::Done)
}

#[test]
fn files_without_the_form_are_refused(rt: HostRuntime) -> Result<(), Fail> {
    must_check_each(rt.alloc(), &WITHOUT_FORM, Status::Refused)
}

#[test]
fn values_that_are_no_instance_are_refused(rt: HostRuntime) -> Result<(), Fail> {
    must_check_each(rt.alloc(), &NO_INSTANCE, Status::Refused)
}

#[test]
fn of_two_faults_the_earlier_is_named(rt: HostRuntime) -> Result<(), Fail> {
    must_check_each(rt.alloc(), &TWO_FAULTS, Status::Refused)
}

#[test]
fn files_that_are_not_read_are_read_faults(rt: HostRuntime) -> Result<(), Fail> {
    must_read_each(rt.alloc(), &READ)
}

const SOLUTIONS: [(&str, &str, Status); 15] = [
    (
        r#"{"content_type":"CGSHOP2026_Solution","flips":[[],[[],[[1,3]]]],"instance_uid":"Q","meta":{}}"#,
        "total 2\n",
        Status::Done,
    ),
    (
        r#"{"content_type":"CGSHOP2026_Solution","flips":[[],[[[1,3]]]],"instance_uid":"Q","meta":{}}"#,
        "total 1\n",
        Status::Done,
    ),
    (
        r#"{"content_type":"CGSHOP2026_Solution","flips":[[[[0,2]]],[]],"instance_uid":"Q","meta":{},"more":1}"#,
        "total 1\n",
        Status::Done,
    ),
    (
        r#"{"content_type":"CGSHOP2026_Solution","flips":[[[[0,2],[0,2]]],[]],"instance_uid":"Q","meta":{}}"#,
        "refused solution Round 0 Twice 0 0-2\n",
        Status::Refused,
    ),
    (
        r#"{"content_type":"CGSHOP2026_Solution","flips":[[[[1,3]]],[]],"instance_uid":"Q","meta":{}}"#,
        "refused solution Round 0 NotEdge 0 1-3\n",
        Status::Refused,
    ),
    (
        r#"{"content_type":"CGSHOP2026_Solution","flips":[[[[0,1]]],[]],"instance_uid":"Q","meta":{}}"#,
        "refused solution Round 0 NotConvex 0 0-1\n",
        Status::Refused,
    ),
    (
        r#"{"content_type":"CGSHOP2026_Solution","flips":[[]],"instance_uid":"Q","meta":{}}"#,
        "refused solution InputCount 1 2\n",
        Status::Refused,
    ),
    (
        r#"{"content_type":"CGSHOP2026_Solution","flips":[[],[]],"instance_uid":"Q","meta":{}}"#,
        "refused solution NoCommonCentre 1\n",
        Status::Refused,
    ),
    (
        r#"{"content_type":"CGSHOP2026_Solution","flips":[[[[1,1]]]],"instance_uid":"Q","meta":{}}"#,
        "refused solution BadPair 0\n",
        Status::Refused,
    ),
    (
        r#"{"content_type":"CGSHOP2026_Solution","flips":[[],[[[1,3]]]],"instance_uid":"P","meta":{}}"#,
        "refused solution UidSolution\n",
        Status::Refused,
    ),
    (
        r#"{"content_type":"CGSHOP2026_Solution","flips":[[[[0,2.5]]]],"instance_uid":"Q","meta":{}}"#,
        "refused solution NotInteger 1\n",
        Status::Refused,
    ),
    (
        r#"{"content_type":"CGSHOP2026_Solution","flips":[[[[0]]]],"instance_uid":"Q","meta":{}}"#,
        "refused solution WrongType flips\n",
        Status::Refused,
    ),
    (
        r#"{}"#,
        "refused solution Missing instance_uid\n",
        Status::Refused,
    ),
    (r#"[]"#, "refused solution NotObject\n", Status::Refused),
    (r#""#, "refused solution NotJson\n", Status::Refused),
];

const FIRST_FAULTS: [(&str, &str, &str); 6] = [
    (
        r#"{"instance_uid":"P","points_x":[0,4,5,2,-1],"points_y":[0,0,3,5,3],"triangulations":[[[0,2],[0,3]],[[1,3],[1,4]]]}"#,
        r#"{"content_type":"CGSHOP2026_Solution","flips":[[[[0,2],[0,3]]],[]],"instance_uid":"P","meta":{}}"#,
        "refused solution Round 0 SharedTriangle 0 0-3 0-2\n",
    ),
    (
        r#"{"instance_uid":"P","points_x":[0,4,5,2,-1],"points_y":[0,0,3,5,3],"triangulations":[[[0,2],[0,3]],[[1,3],[1,4]]]}"#,
        r#"{"content_type":"CGSHOP2026_Solution","flips":[[[[0,2]]],[[[1,4]]]],"instance_uid":"P","meta":{}}"#,
        "total 2\n",
    ),
    (
        r#"{"instance_uid":"F","points_x":[0,1,2,1],"points_y":[0,0,0,2],"triangulations":[[[1,3]]]}"#,
        r#"{"content_type":"CGSHOP2026_Solution","flips":[[[[1,3]]]],"instance_uid":"F","meta":{}}"#,
        "refused solution Round 0 NotConvex 0 1-3\n",
    ),
    (r#"[]"#, r#"[]"#, "refused instance NotObject\n"),
    (
        r#"{"instance_uid":"Q","points_x":[0],"points_y":[0],"triangulations":[]}"#,
        r#"[]"#,
        "refused solution NotObject\n",
    ),
    (
        r#"{"instance_uid":"Q","points_x":[0],"points_y":[0],"triangulations":[]}"#,
        r#"{"content_type":"CGSHOP2026_Solution","flips":[],"instance_uid":"Q","meta":{}}"#,
        "refused instance TooFewPoints 1\n",
    ),
];

// Each solution of the square has this score or fault.
fn must_score_each(alloc: Global, rows: &[(&str, &str, Status)]) -> Result<(), Fail> {
    for row in rows {
        must_run(
            alloc,
            &[("i.json", SQUARE), ("s.json", row.0)],
            &SCORE,
            row.2,
            row.1,
        )?;
    }
    Ok(())
}

#[test]
fn solutions_of_the_square_are_scored(rt: HostRuntime) -> Result<(), Fail> {
    must_score_each(rt.alloc(), &SOLUTIONS)
}

// For each row, an instance and a solution, this is printed.
fn must_score(alloc: Global, rows: &[(&str, &str, &str)]) -> Result<(), Fail> {
    for row in rows {
        let mut store = store_of(alloc, &[("i.json", row.0), ("s.json", row.1)])?;
        must_print(alloc, &mut store, &SCORE, row.2)?;
    }
    Ok(())
}

#[test]
fn rounds_are_refused_for_their_first_fault(rt: HostRuntime) -> Result<(), Fail> {
    must_score(rt.alloc(), &FIRST_FAULTS)
}

// The JSON text of a list that has one item so many times.
fn list_text(alloc: Global, item: &str, count: usize) -> Result<String, Fail> {
    let mut text = String::from_str(alloc, "[")?;
    for i in 0..count {
        if i > 0 {
            text.push_str(",")?;
        }
        text.push_str(item)?;
    }
    text.push_str("]")?;
    Ok(text)
}

// An instance with so many points, which are one point, and so many inputs, which have no pair.
fn text_of_size(alloc: Global, points: usize, inputs: usize) -> Result<String, Fail> {
    let xs = list_text(alloc, "0", points)?;
    let lists = list_text(alloc, "[]", inputs)?;
    Ok(format!(in alloc;
        "{{\"instance_uid\":\"L\",\"points_x\":{xs},\"points_y\":{xs},\"triangulations\":{lists}}}"
    )?)
}

// An instance of this size is refused with this line.
fn must_refuse_size(alloc: Global, points: usize, inputs: usize, line: &str) -> Result<(), Fail> {
    let text = text_of_size(alloc, points, inputs)?;
    must_check(alloc, text.as_str(), 9, "q.json", Status::Refused, line)
}

#[test]
fn limits_are_named_in_their_order(rt: HostRuntime) -> Result<(), Fail> {
    let alloc = rt.alloc();
    must_refuse_size(alloc, 16_385, 257, "refused instance TooManyPoints 16385\n")?;
    must_refuse_size(alloc, 2, 257, "refused instance TooManyInputs 257\n")?;
    must_refuse_size(alloc, 2, 256, "refused instance TooFewPoints 2\n")
}

// One point out of reach, one input with so many pairs, and so many further inputs.
fn raw_of_size(alloc: Global, pairs: usize, more: usize) -> Result<RawInstance, AllocError>
    ensures { IfOk result (λ raw. length raw.weights ≡ length raw.inputs) }
{
    let mut points = PointList::make(alloc);
    points.push(Point {
        x: 536_870_913,
        y: 0,
    })?;
    let mut input = PairList::make(alloc);
    for _ in 0..pairs {
        input.push(RawPair { a: 0, b: 1 })?;
    }
    let mut inputs = RawInputs::make(alloc);
    inputs.push(input)?;
    for _ in 0..more {
        inputs.push(PairList::make(alloc))?;
    }
    RawInstance::unweighted(alloc, Uid::of(alloc, "L")?, points, inputs)
}

// What the validator says of them.
fn fault_of_size(
    alloc: Global,
    pairs: usize,
    more: usize,
) -> Result<Option<CheckFault>, AllocError> {
    let raw = raw_of_size(alloc, pairs, more)?;
    Ok(Instance::check(alloc, raw).err())
}

#[test]
fn pairs_are_counted_between_inputs_and_coordinates(rt: HostRuntime) -> Result<(), Fail> {
    let rows = [
        (2_000_001, 256, Bad::TooManyInputs(257)),
        (2_000_001, 0, Bad::TooManyPairs(2_000_001)),
        (2_000_000, 0, Bad::CoordinateRange(0)),
    ];
    for (pairs, more, bad) in rows {
        let fault = fault_of_size(rt.alloc(), pairs, more)?;
        assert!(rt; fault == Some(CheckFault::Bad(bad)));
    }
    Ok(())
}
