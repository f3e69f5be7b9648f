// Runs of `solve` over stores and sinks in memory: what is printed and written, and what `score` and `verify` then say of it.
use crate::runs::{
    Outcome, SCORE, VERIFY, must_end, must_leave, must_print, must_say, outcome_in, run_with,
    solved_store, store_with,
};
use centre_run::Status;
use host_io::MemStore;
use std::alloc::Global;
use std::test::Fail;

const SQUARE: &str =
    r#"{"instance_uid":"Q","points_x":[0,2,2,0],"points_y":[0,0,2,2],"triangulations":[[[0,2]],[[1,3]]]}"#;

const TURNED: &str =
    r#"{"instance_uid":"Q","points_x":[0,2,2,0],"points_y":[0,0,2,2],"triangulations":[[[2,0],[0,2]],[[3,1]]]}"#;

const FIRST_ALONE: &str =
    r#"{"instance_uid":"Q","points_x":[0,2,2,0],"points_y":[0,0,2,2],"triangulations":[[[0,2]]]}"#;

const SECOND_ALONE: &str =
    r#"{"instance_uid":"Q","points_x":[0,2,2,0],"points_y":[0,0,2,2],"triangulations":[[[1,3]]]}"#;

const FIRST_TWICE: &str =
    r#"{"instance_uid":"Q","points_x":[0,2,2,0],"points_y":[0,0,2,2],"triangulations":[[[0,2]],[[0,2]],[[1,3]]]}"#;

const PENTAGON: &str =
    r#"{"instance_uid":"P","points_x":[0,4,5,2,-1],"points_y":[0,0,3,5,3],"triangulations":[[[0,2],[0,3]],[[1,3],[1,4]]]}"#;

const HEXAGON: &str =
    r#"{"instance_uid":"H","points_x":[5,3,-3,-5,-3,3],"points_y":[0,4,4,0,-4,-4],"triangulations":[[[0,2],[0,3],[0,4]],[[1,3],[1,4],[1,5]]]}"#;

const OCTAGON: &str =
    r#"{"instance_uid":"O","points_x":[8,7,4,1,-1,-4,-7,-8],"points_y":[1,4,7,8,8,7,4,1],"triangulations":[[[0,2],[0,3],[0,4],[0,5],[0,6]],[[1,3],[1,4],[1,5],[1,6],[1,7]]]}"#;

// The solution and the certificate of the square.
const SQUARE_SOLUTION: &str =
    r#"{"content_type":"CGSHOP2026_Solution","flips":[[],[[[1,3]]]],"instance_uid":"Q","meta":{}}"#;

const SQUARE_CERTIFICATE: &str =
    "flipcentre-certificate 3\nuid 51\ninputs 2 2\nopening 1\ntotal 1\nbound 1\njournal 0\nrows 1\nrow 0 1 1\ncrosses first 0 2 1\nmet 1\nround 0 2\npack 1 0\nend\n";

// The solution of one input that is the centre.
const NO_ROUNDS: &str =
    r#"{"content_type":"CGSHOP2026_Solution","flips":[[]],"instance_uid":"Q","meta":{}}"#;

fn outcome_with(alloc: Global, instance: &str, option: &str, value: &str) -> Result<Outcome, Fail> {
    let mut store = store_with(alloc, instance)?;
    let words = [
        "solve",
        "i.json",
        option,
        value,
        "s.json",
        "c.txt",
        "--workers",
        "0",
    ];
    let (status, line) = run_with(alloc, &mut store, &words)?;
    outcome_in(alloc, &store, status, line)
}

// The same without turns of improvers.
fn settled(alloc: Global, instance: &str) -> Result<Outcome, Fail> {
    outcome_with(alloc, instance, "--turns", "0")
}

// Without turns this line is printed and these two texts are written.
fn must_settle(
    alloc: Global,
    instance: &str,
    line: &str,
    solution: &str,
    certificate: &str,
) -> Result<(), Fail> {
    let found = settled(alloc, instance)?;
    must_leave(&found, Status::Done, line, solution, certificate)
}

#[test]
fn the_diagonals_of_a_square_are_a_round_apart(rt: HostRuntime) -> Result<(), Fail> {
    must_settle(
        rt.alloc(),
        SQUARE,
        "total 1 bound 1\n",
        SQUARE_SOLUTION,
        SQUARE_CERTIFICATE,
    )
}

#[test]
fn pairs_may_come_in_any_order(rt: HostRuntime) -> Result<(), Fail> {
    must_settle(
        rt.alloc(),
        TURNED,
        "total 1 bound 1\n",
        SQUARE_SOLUTION,
        SQUARE_CERTIFICATE,
    )
}

#[test]
fn the_first_diagonal_alone_is_the_centre(rt: HostRuntime) -> Result<(), Fail> {
    must_settle(
        rt.alloc(),
        FIRST_ALONE,
        "total 0 bound 0\n",
        NO_ROUNDS,
        "flipcentre-certificate 3\nuid 51\ninputs 1 1\nopening 0\ntotal 0\nbound 0\njournal 0\nrows 0\npack 0\nend\n",
    )
}

#[test]
fn the_second_diagonal_alone_is_settled(rt: HostRuntime) -> Result<(), Fail> {
    must_settle(
        rt.alloc(),
        SECOND_ALONE,
        "total 0 bound 0\n",
        NO_ROUNDS,
        "flipcentre-certificate 3\nuid 51\ninputs 1 1\nopening 1\ntotal 0\nbound 0\njournal 1\nmove 0 0 2\nrows 0\npack 0\nend\n",
    )
}

// This line was printed, and the certificate that was written has these lines.
fn must_certify(found: &Outcome, line: &str, lines: &str) -> Result<(), Fail> {
    must_say(found.line.as_str(), line)?;
    if found.certificate.contains(lines) {
        Ok(())
    } else {
        Err(Fail::new(format_args!("no lines {lines:?}")))
    }
}

#[test]
fn equal_inputs_have_a_row_of_no_rounds(rt: HostRuntime) -> Result<(), Fail> {
    let found = settled(rt.alloc(), FIRST_TWICE)?;
    must_certify(
        &found,
        "total 1 bound 1\n",
        "\nrows 3\nrow 0 1 0\nnone\nmet 0\nrow 0 2 1\n",
    )
}

// Without turns this line is printed, this solution is written, and the certificate has these lines.
fn must_settle_with(
    alloc: Global,
    instance: &str,
    line: &str,
    solution: &str,
    lines: &str,
) -> Result<(), Fail> {
    let found = settled(alloc, instance)?;
    must_certify(&found, line, lines)?;
    must_say(found.solution.as_str(), solution)
}

#[test]
fn the_fans_of_a_pentagon_are_two_rounds_apart(rt: HostRuntime) -> Result<(), Fail> {
    must_settle_with(
        rt.alloc(),
        PENTAGON,
        "total 2 bound 2\n",
        r#"{"content_type":"CGSHOP2026_Solution","flips":[[[[0,2]]],[[[1,4]]]],"instance_uid":"P","meta":{}}"#,
        "\nrow 0 1 2\ncrosses first 0 2 2\nmet 2\n",
    )
}

#[test]
fn the_fans_of_a_hexagon_are_three_rounds_apart(rt: HostRuntime) -> Result<(), Fail> {
    let found = settled(rt.alloc(), HEXAGON)?;
    must_certify(&found, "total 3 bound 3\n", "\nrow 0 1 3\nrefuted 2 ")?;
    must_certify(&found, "total 3 bound 3\n", "\nmet 3\n")?;
    must_say(
        found.solution.as_str(),
        r#"{"content_type":"CGSHOP2026_Solution","flips":[[],[[[1,5]],[[1,4]],[[1,3]]]],"instance_uid":"H","meta":{}}"#,
    )
}

#[test]
fn the_fans_of_an_octagon_are_four_rounds_apart(rt: HostRuntime) -> Result<(), Fail> {
    must_settle_with(
        rt.alloc(),
        OCTAGON,
        "total 5 bound 4\n",
        r#"{"content_type":"CGSHOP2026_Solution","flips":[[],[[[1,7]],[[1,6]],[[1,5]],[[1,4]],[[1,3]]]],"instance_uid":"O","meta":{}}"#,
        "\nrow 0 1 4\nrefuted 3 ",
    )
}

#[test]
fn turns_lower_the_total(rt: HostRuntime) -> Result<(), Fail> {
    let found = outcome_with(rt.alloc(), OCTAGON, "--seed", "1")?;
    must_certify(
        &found,
        "total 4 bound 4\n",
        "\nopening 5\ntotal 4\nbound 4\njournal ",
    )
}

// `score` and `verify` print these of what `solve` wrote.
fn must_show(alloc: Global, instance: &str, score: &str, verdict: &str) -> Result<(), Fail> {
    let mut store = solved_store(alloc, instance)?;
    must_print(alloc, &mut store, &SCORE, score)?;
    must_print(alloc, &mut store, &VERIFY, verdict)
}

#[test]
fn what_is_written_for_a_square_is_shown(rt: HostRuntime) -> Result<(), Fail> {
    must_show(rt.alloc(), SQUARE, "total 1\n", "yes total 1 bound 1\n")
}

#[test]
fn what_is_written_for_a_pentagon_is_shown(rt: HostRuntime) -> Result<(), Fail> {
    must_show(rt.alloc(), PENTAGON, "total 2\n", "yes total 2 bound 2\n")
}

#[test]
fn what_is_written_for_a_hexagon_is_shown(rt: HostRuntime) -> Result<(), Fail> {
    must_show(rt.alloc(), HEXAGON, "total 3\n", "yes total 3 bound 3\n")
}

#[test]
fn what_is_written_for_an_octagon_is_shown(rt: HostRuntime) -> Result<(), Fail> {
    must_show(rt.alloc(), OCTAGON, "total 4\n", "yes total 4 bound 4\n")
}

// With this option the run ends so, with this line and nothing written.
fn must_refuse(
    alloc: Global,
    instance: &str,
    flips: &str,
    status: Status,
    line: &str,
) -> Result<(), Fail> {
    let refused = outcome_with(alloc, instance, "--flips", flips)?;
    must_leave(&refused, status, line, "", "")
}

#[test]
fn budgets_that_are_too_small_are_named(rt: HostRuntime) -> Result<(), Fail> {
    let line = "flip budget 1\n";
    must_refuse(rt.alloc(), SQUARE, "0", Status::FlipBudget, line)?;
    must_refuse(rt.alloc(), HEXAGON, "2", Status::FlipBudget, line)
}

// So many flips are enough, and this is printed.
fn must_allow(alloc: Global, instance: &str, flips: &str, line: &str) -> Result<(), Fail> {
    let found = outcome_with(alloc, instance, "--flips", flips)?;
    must_be_done(&found, line)
}

// The run ended with all done, and this line.
fn must_be_done(found: &Outcome, line: &str) -> Result<(), Fail> {
    if found.status == Status::Done {
        must_say(found.line.as_str(), line)
    } else {
        Err(Fail::new(format_args!("{:?}", found.status)))
    }
}

#[test]
fn budgets_of_as_many_flips_as_a_run_has_are_enough(rt: HostRuntime) -> Result<(), Fail> {
    let alloc = rt.alloc();
    must_allow(alloc, SQUARE, "1", "total 1 bound 1\n")?;
    must_allow(alloc, FIRST_ALONE, "0", "total 0 bound 0\n")?;
    must_allow(alloc, HEXAGON, "3", "total 3 bound 3\n")
}

#[test]
fn a_file_with_a_fault_is_refused(rt: HostRuntime) -> Result<(), Fail> {
    must_refuse(
        rt.alloc(),
        "[]",
        "3",
        Status::Refused,
        "refused instance NotObject\n",
    )
}

// The store holds nothing but the instance.
fn must_hold_no_more(store: &MemStore) -> Result<(), Fail> {
    if store.look("s.json").is_none() && store.look("c.txt").is_none() {
        Ok(())
    } else {
        Err(Fail::new("a file is written"))
    }
}

// These words are refused, and nothing is written.
fn must_refuse_words(alloc: Global, words: &[&str]) -> Result<(), Fail> {
    let mut store = store_with(alloc, SQUARE)?;
    must_end(alloc, &mut store, words, Status::Words, "words refused\n")?;
    must_hold_no_more(&store)
}

const NOT_ASKING: [&[&str]; 9] = [
    &["solve", "i.json", "s.json", "--workers", "0"],
    &["solve", "i.json", "i.json", "c.txt", "--workers", "0"],
    &["solve", "i.json", "s.json", "s.json", "--workers", "0"],
    &["solve", "i.json", "s.json", "i.json", "--workers", "0"],
    &["solve", "i.json", "s.json", "c.txt", "5", "--workers", "0"],
    &["solve", "i.json", "s.json", "c.txt", "--workers=0"],
    // These ask for workers, which this call has none of.
    &["solve", "i.json", "s.json", "c.txt", "--workers", "1"],
    &["solve", "i.json", "s.json", "c.txt", "--workers", "16"],
    &["solve", "i.json", "s.json", "c.txt"],
];

// So are these, each by itself.
fn must_refuse_each(alloc: Global, rows: &[&[&str]]) -> Result<(), Fail> {
    for words in rows {
        must_refuse_words(alloc, words)?;
    }
    Ok(())
}

#[test]
fn words_that_ask_for_nothing_are_refused(rt: HostRuntime) -> Result<(), Fail> {
    must_refuse_each(rt.alloc(), &NOT_ASKING)
}
