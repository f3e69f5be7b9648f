// Words as they are read.
use centre_words::*;
use std::alloc::Global;
use std::test::Fail;

// What the words of a line, with one space between two, ask for.
fn read(alloc: Global, line: &str) -> Result<Option<Asked>, Fail> {
    let mut words = Vec::new(alloc);
    for word in line.split(' ') {
        words.push(String::from_str(alloc, word)?)?;
    }
    match read_words(alloc, &words) {
        Ok(asked) => Ok(Some(asked)),
        Err(WordsFault::Words) => Ok(None),
        Err(WordsFault::OutOfMemory) => Err(Fail::from("memory")),
    }
}

// A line, and the workers, turns, seed and flips that it asks for.
type SolveRow<'a> = (&'a str, u32, u32, u64, Option<u64>);

const SOLVES: [SolveRow<'static>; 13] = [
    ("solve q s c", 4, 64, 1, None),
    ("solve q s c --workers 0", 0, 64, 1, None),
    ("solve q s c --workers 16", 16, 64, 1, None),
    ("solve q s c --turns 0", 4, 0, 1, None),
    ("solve --turns 1000000 q s c", 4, 1_000_000, 1, None),
    ("solve q --seed 0 s c", 4, 64, 0, None),
    ("solve q s --workers 00 c", 0, 64, 1, None),
    (
        "solve q s c --seed 18446744073709551615",
        4,
        64,
        u64::MAX,
        None,
    ),
    ("solve q s c --flips 0", 4, 64, 1, Some(0)),
    (
        "solve q s --flips 1000000000 c",
        4,
        64,
        1,
        Some(1_000_000_000),
    ),
    (
        "solve --flips 7 q --seed 5 s --workers 1 c --turns 3",
        1,
        3,
        5,
        Some(7),
    ),
    (
        "solve --workers 0 --seed 5 --turns 3 q s c --flips 7",
        0,
        3,
        5,
        Some(7),
    ),
    ("solve q s c --turns 00000000000000000003", 4, 3, 1, None),
];

const NOT_THREE_NAMES: [&str; 15] = [
    "solve",
    "solve q",
    "solve q s",
    "solve q s c d",
    "solve q q c",
    "solve q s q",
    "solve q s s",
    "solve q q q",
    "solve q --turns 3 q c",
    "solve q s --workers 0 s",
    "solve -q s c",
    "solve q -s c",
    "solve q s -c",
    "solve q s ",
    "solve q s --workers 0",
];

const NO_WORKERS: [&str; 11] = [
    "solve q s c --workers 17",
    "solve q s c --workers x",
    "solve q s c --workers -1",
    "solve q s c --workers +0",
    "solve q s c --workers",
    "solve q s c --workers ",
    "solve q s c --workers=0",
    "solve q s c --workers 0 --workers 0",
    "solve q s c --workers 000000000000000000000",
    "check q --workers 0",
    "verify q s c --workers 0",
];

const OTHER_WORDS: [&str; 46] = [
    "",
    "check",
    "check q s",
    "check -q",
    "check --help",
    "check q --turns 1",
    "score q",
    "score q s t",
    "verify",
    "verify q s",
    "verify q s c d",
    "verify q s ",
    "verify -q s c",
    "verify q s -c",
    "verify q s c --turns 1",
    "trace",
    "trace q",
    "trace q ",
    "trace  1",
    "trace -q 1",
    "trace q -1",
    "trace q +1",
    "trace q x",
    "trace q 256",
    "trace q 00000000000000000000001",
    "trace q 1 2",
    "solve q s c --",
    "solve -- q s c",
    "solve q s c -h",
    "solve q s c --help",
    "solve q s c --turns",
    "solve q s c --turns ",
    "solve q s c --turns -1",
    "solve q s c --turns +1",
    "solve q s c --turns x",
    "solve q s c --turns=1",
    "solve q s c --turns 1 --turns 1",
    "solve q s c --turns --turns",
    "solve q s c --turns 1000001",
    "solve q s c --seed 18446744073709551616",
    "solve q s c --flips 1000000001",
    "solve q s c --turns 000000000000000000003",
    "solve q s c --works 0",
    "--turns 1 solve q s c",
    "help",
    "--help",
];

// Fails unless the line asks for this.
fn must_ask(alloc: Global, line: &str, wanted: Asked) -> Result<(), Fail> {
    let asked = read(alloc, line)?;
    if asked == Some(wanted) {
        Ok(())
    } else {
        Err(Fail::new(format_args!("{line} asks for {asked:?}")))
    }
}

// Fails unless the line asks for nothing.
fn must_refuse(alloc: Global, line: &str) -> Result<(), Fail> {
    let asked = read(alloc, line)?;
    if asked == None {
        Ok(())
    } else {
        Err(Fail::new(format_args!("{line} asks for {asked:?}")))
    }
}

fn must_refuse_each(alloc: Global, lines: &[&str]) -> Result<(), Fail> {
    for line in lines {
        must_refuse(alloc, line)?;
    }
    Ok(())
}

// `solve` of `q` into `s` with the certificate `c`.
fn solve(row: &SolveRow, instance: Name, solution: Name, certificate: Name) -> Asked {
    Asked::Solve {
        instance,
        solution,
        certificate,
        workers: row.1,
        turns: row.2,
        seed: row.3,
        flips: row.4,
    }
}

fn must_solve(alloc: Global, row: &SolveRow) -> Result<(), Fail> {
    let instance = Name::of(alloc, "q")?;
    let solution = Name::of(alloc, "s")?;
    let certificate = Name::of(alloc, "c")?;
    must_ask(alloc, row.0, solve(row, instance, solution, certificate))
}

fn must_solve_each(alloc: Global, rows: &[SolveRow]) -> Result<(), Fail> {
    for row in rows {
        must_solve(alloc, row)?;
    }
    Ok(())
}

#[test]
fn solve_has_options_in_any_place(rt: HostRuntime) -> Result<(), Fail> {
    must_solve_each(rt.alloc(), &SOLVES)
}

#[test]
fn solve_has_three_names_that_differ(rt: HostRuntime) -> Result<(), Fail> {
    must_refuse_each(rt.alloc(), &NOT_THREE_NAMES)
}

#[test]
fn solve_has_sixteen_workers_at_most(rt: HostRuntime) -> Result<(), Fail> {
    must_refuse_each(rt.alloc(), &NO_WORKERS)
}

#[test]
fn other_words_are_refused(rt: HostRuntime) -> Result<(), Fail> {
    must_refuse_each(rt.alloc(), &OTHER_WORDS)
}

// Fails unless the line asks for `check` of this name.
fn must_check(alloc: Global, line: &str, instance: &str) -> Result<(), Fail> {
    let instance = Name::of(alloc, instance)?;
    must_ask(alloc, line, Asked::Check { instance })
}

// Fails unless the line asks for `score` of these names.
fn must_score(alloc: Global, line: &str, instance: &str, solution: &str) -> Result<(), Fail> {
    let instance = Name::of(alloc, instance)?;
    let solution = Name::of(alloc, solution)?;
    must_ask(alloc, line, Asked::Score { instance, solution })
}

#[test]
fn names_stand_in_order(rt: HostRuntime) -> Result<(), Fail> {
    let alloc = rt.alloc();
    must_check(alloc, "check q.json", "q.json")?;
    must_score(alloc, "score q s", "q", "s")?;
    must_score(alloc, "score q q", "q", "q")?;
    assert!(rt; Name::of(alloc, "é")?.text() == "é");
    Ok(())
}

// Fails unless the line asks for `verify` of `q` and `s` with this certificate.
fn must_verify(alloc: Global, line: &str, certificate: &str) -> Result<(), Fail> {
    let instance = Name::of(alloc, "q")?;
    let solution = Name::of(alloc, "s")?;
    let certificate = Name::of(alloc, certificate)?;
    must_ask(
        alloc,
        line,
        Asked::Verify {
            instance,
            solution,
            certificate,
        },
    )
}

#[test]
fn verify_has_three_names(rt: HostRuntime) -> Result<(), Fail> {
    must_verify(rt.alloc(), "verify q s c", "c")?;
    must_verify(rt.alloc(), "verify q s q", "q")
}

// Fails unless the line asks for `trace` of `q.json` at this place.
fn must_trace(alloc: Global, line: &str, t: u64) -> Result<(), Fail> {
    let instance = Name::of(alloc, "q.json")?;
    must_ask(alloc, line, Asked::Trace { instance, t })
}

#[test]
fn trace_has_a_name_and_a_place(rt: HostRuntime) -> Result<(), Fail> {
    must_trace(rt.alloc(), "trace q.json 0", 0)?;
    must_trace(rt.alloc(), "trace q.json 255", 255)?;
    must_trace(rt.alloc(), "trace q.json 00000000000000000007", 7)
}
