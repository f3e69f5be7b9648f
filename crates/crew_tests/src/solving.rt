// `solve` by workers, on files in memory.
use crate::gates::AllBegin;
use crate::words::prints;
use host_io::MemStore;
use std::test::Fail;
use worker_crew::NoGate;

const SQUARE: &str =
    r#"{"instance_uid":"square","points_x":[0,2,2,0],"points_y":[0,0,2,2],"triangulations":[[[0,2]],[[1,3]]]}"#;

const THREE: &str =
    r#"{"instance_uid":"three","points_x":[0,2,2,0],"points_y":[0,0,2,2],"triangulations":[[[0,2]],[[0,2]],[[1,3]]]}"#;

const PENTAGON: &str =
    r#"{"instance_uid":"pentagon","points_x":[0,4,5,2,-1],"points_y":[0,0,3,5,3],"triangulations":[[[0,2],[0,3]],[[1,3],[1,4]]]}"#;

#[test]
fn two_workers_begin_beside_each_other(rt: HostRuntime) -> Result<(), Fail> {
    let gate = AllBegin::new(1, 2);
    let mut store = MemStore::make(rt.alloc());
    store.hold("i", SQUARE.as_bytes())?;
    let words = ["solve", "i", "s", "c", "--workers", "2", "--turns", "1"];
    let line = "total 1 bound 1\n";
    let done = prints(&rt, rt.alloc(), &mut store, &words, &gate, line)?;
    assert!(rt; done && gate.seen() == 1);
    Ok(())
}

#[test]
fn four_workers_begin_beside_each_other(rt: HostRuntime) -> Result<(), Fail> {
    let gate = AllBegin::new(4, 4);
    let mut store = MemStore::make(rt.alloc());
    store.hold("i", THREE.as_bytes())?;
    let words = ["solve", "i", "s", "c", "--workers", "4", "--turns", "2"];
    let line = "total 1 bound 1\n";
    let done = prints(&rt, rt.alloc(), &mut store, &words, &gate, line)?;
    assert!(rt; done && gate.seen() == 4);
    Ok(())
}

#[test]
fn sixteen_workers_solve_the_pentagon(rt: HostRuntime) -> Result<(), Fail> {
    let mut store = MemStore::make(rt.alloc());
    store.hold("i", PENTAGON.as_bytes())?;
    let words = ["solve", "i", "s", "c", "--workers", "16"];
    let line = "total 2 bound 2\n";
    let done = prints(&rt, rt.alloc(), &mut store, &words, &NoGate, line)?;
    assert!(rt; done);
    Ok(())
}
