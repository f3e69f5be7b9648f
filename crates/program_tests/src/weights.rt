// Runs over instances with weights: each row the weights of the square's two inputs, the words, and the line.
use crate::runs::{SCORE, must_print, must_say, solved_store, store_of, text_under, verdict};
use std::alloc::Global;
use std::test::Fail;

const SEVENTEEN: &str =
    r#"{"instance_uid":"Q","points_x":[0,2,2,0],"points_y":[0,0,2,2],"triangulations":[[[0,2]],[[0,2]],[[0,2]],[[0,2]],[[0,2]],[[0,2]],[[0,2]],[[0,2]],[[0,2]],[[0,2]],[[0,2]],[[0,2]],[[0,2]],[[0,2]],[[0,2]],[[0,2]],[[0,2]]],"x_weights":[16,16,16,16,16,16,16,16,16,16,16,16,16,16,16,16,16]}"#;

// A solution with one round for each of the square's inputs.
const SOLUTION: &str =
    r#"{"content_type":"CGSHOP2026_Solution","flips":[[[[0,2]]],[[]]],"instance_uid":"Q","meta":{}}"#;

const CHECK: [&str; 2] = ["check", "i.json"];

const SOLVE: [&str; 8] = [
    "solve",
    "i.json",
    "--workers",
    "0",
    "--turns",
    "0",
    "o.json",
    "c.txt",
];

const CHECKED: [(&str, &str); 6] = [
    ("[1,3]", "valid points 4 inputs 2\n"),
    ("[1]", "refused instance WeightCount 1 2\n"),
    ("[1,17]", "refused instance WeightRange 1\n"),
    ("[0,1]", "refused instance WeightRange 0\n"),
    ("[1,1.5]", "refused instance NotInteger x_weights 1\n"),
    ("\"a\"", "refused instance WrongType x_weights\n"),
];

const SCORED: [(&str, &str); 3] = [
    ("[1,3]", "total 4\n"),
    ("[2,2]", "total 4\n"),
    ("[1,1]", "total 2\n"),
];

const SOLVED: [(&str, &str); 3] = [
    ("[1,3]", "total 1 bound 1\n"),
    ("[2,2]", "total 2 bound 2\n"),
    ("[1,1]", "total 1 bound 1\n"),
];

// The square with its two diagonals as inputs, and these weights.
fn square(alloc: Global, weights: &str) -> Result<String, Fail> {
    Ok(format!(in alloc;
        "{{\"instance_uid\":\"Q\",\"points_x\":[0,2,2,0],\"points_y\":[0,0,2,2],\"triangulations\":[[[0,2]],[[1,3]]],\"x_weights\":{weights}}}"
    )?)
}

// A run with these words over this instance prints this.
fn must_tell(alloc: Global, instance: &str, words: &[&str], line: &str) -> Result<(), Fail> {
    let mut store = store_of(alloc, &[("i.json", instance), ("s.json", SOLUTION)])?;
    must_print(alloc, &mut store, words, line)
}

// So does one over the square, with the weights and the line of each row.
fn must_tell_each(alloc: Global, rows: &[(&str, &str)], words: &[&str]) -> Result<(), Fail> {
    for row in rows {
        let text = square(alloc, row.0)?;
        must_tell(alloc, text.as_str(), words, row.1)?;
    }
    Ok(())
}

#[test]
fn weights_are_checked(rt: HostRuntime) -> Result<(), Fail> {
    must_tell_each(rt.alloc(), &CHECKED, &CHECK)
}

#[test]
fn the_weights_of_all_inputs_are_added_up(rt: HostRuntime) -> Result<(), Fail> {
    must_tell(
        rt.alloc(),
        SEVENTEEN,
        &CHECK,
        "refused instance WeightSum 272\n",
    )
}

#[test]
fn rounds_count_with_their_weights(rt: HostRuntime) -> Result<(), Fail> {
    must_tell_each(rt.alloc(), &SCORED, &SCORE)
}

#[test]
fn totals_and_bounds_count_with_the_weights(rt: HostRuntime) -> Result<(), Fail> {
    must_tell_each(rt.alloc(), &SOLVED, &SOLVE)
}

// The certificate that `solve` writes of the square with these weights, and what `verify` prints of it.
fn judged(alloc: Global, weights: &str) -> Result<(String, String), Fail> {
    let text = square(alloc, weights)?;
    let mut store = solved_store(alloc, text.as_str())?;
    let certificate = text_under(alloc, &store, "c.txt")?;
    Ok((certificate, verdict(alloc, &mut store)?))
}

#[test]
fn certificates_have_a_place_for_each_copy(rt: HostRuntime) -> Result<(), Fail> {
    let (certificate, verdict) = judged(rt.alloc(), "[2,2]")?;
    assert!(rt; certificate.contains("\ninputs 2 4\nopening 2\ntotal 2\nbound 2\n"));
    must_say(verdict.as_str(), "yes total 2 bound 2\n")
}
