// A hexagon whose inputs are the fans at two neighbours, with the files that `solve` writes for it. That it needs three rounds is shown by a log that refutes two.
use centre_run::{Status, run_plain};
use host_io::{MemSink, MemStore};
use std::alloc::Global;
use std::test::Fail;

const HEXAGON: &str =
    r#"{"instance_uid":"H","points_x":[5,3,-3,-5,-3,3],"points_y":[0,4,4,0,-4,-4],"triangulations":[[[0,2],[0,3],[0,4]],[[1,3],[1,4],[1,5]]]}"#;

const SOLUTION: &str =
    r#"{"content_type":"CGSHOP2026_Solution","flips":[[],[[[1,5]],[[1,4]],[[1,3]]]],"instance_uid":"H","meta":{}}"#;

const BEFORE_THE_LOG: &str =
    "flipcentre-certificate 3\nuid 48\ninputs 2 2\nopening 3\ntotal 3\nbound 3\njournal 0\nrows 1\nrow 0 1 3\nrefuted 2 1\n";

const LOG: &str = "60 0 2 24 0\n";

const BEHIND_THE_LOG: &str = "met 3\nround 0 2 0 4\nround 0 3\nround 3 5\npack 1 0\nend\n";

// The certificate with this log.
fn with_log(alloc: Global, log: &str) -> Result<String, Fail> {
    let mut text = String::from_str(alloc, BEFORE_THE_LOG)?;
    text.push_str(log)?;
    text.push_str(BEHIND_THE_LOG)?;
    Ok(text)
}

fn run(alloc: Global, store: &mut MemStore, words: &[&str]) -> Result<(Status, String), Fail> {
    let mut texts = Vec::new(alloc);
    for word in words {
        texts.push(String::from_str(alloc, word)?)?;
    }
    let mut out = MemSink::make(alloc);
    out.reserve(200)?;
    let status = run_plain(alloc, &texts, store, &mut out);
    let line = String::from_utf8(out.bytes().to_vec(alloc)?)?;
    Ok((status, line))
}

// What `verify` says of the certificate with this log.
fn verdict_on(alloc: Global, log: &str) -> Result<(Status, String), Fail> {
    let certificate = with_log(alloc, log)?;
    let mut store = MemStore::make(alloc);
    store.hold("i.json", HEXAGON.as_bytes())?;
    store.hold("s.json", SOLUTION.as_bytes())?;
    store.hold("c.txt", certificate.as_bytes())?;
    run(alloc, &mut store, &["verify", "i.json", "s.json", "c.txt"])
}

#[test]
fn solve_refutes_two_rounds_by_a_log_of_a_line(rt: HostRuntime) -> Result<(), Fail> {
    let mut store = MemStore::make(rt.alloc());
    store.hold("i.json", HEXAGON.as_bytes())?;
    let words = [
        "solve",
        "i.json",
        "s.json",
        "c.txt",
        "--workers",
        "0",
        "--turns",
        "0",
    ];
    let (_, line) = run(rt.alloc(), &mut store, &words)?;
    assert_eq!(rt; line.as_str(), "total 3 bound 3\n");
    assert!(rt; store.look("s.json") == Some(SOLUTION.as_bytes()));
    let certificate = with_log(rt.alloc(), LOG)?;
    assert!(rt; store.look("c.txt") == Some(certificate.as_bytes()));
    Ok(())
}

#[test]
fn the_log_is_accepted(rt: HostRuntime) -> Result<(), Fail> {
    let (status, line) = verdict_on(rt.alloc(), LOG)?;
    assert_eq!(rt; line.as_str(), "yes total 3 bound 3\n");
    assert_eq!(rt; status, Status::Done);
    Ok(())
}

#[test]
fn a_hint_that_names_no_clause_is_refused(rt: HostRuntime) -> Result<(), Fail> {
    let (status, line) = verdict_on(rt.alloc(), "60 0 999999 24 0\n")?;
    assert_eq!(rt; line.as_str(), "no RowWrong 0 1 Log BadId 0\n");
    assert_eq!(rt; status, Status::No);
    Ok(())
}

#[test]
fn hints_that_falsify_nothing_are_refused(rt: HostRuntime) -> Result<(), Fail> {
    let (status, line) = verdict_on(rt.alloc(), "60 0 2 0\n")?;
    assert_eq!(rt; line.as_str(), "no RowWrong 0 1 Log NoConflict 0\n");
    assert_eq!(rt; status, Status::No);
    Ok(())
}
