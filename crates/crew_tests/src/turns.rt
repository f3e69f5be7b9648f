// All turns of two workers on the square, whose two inputs are its diagonals.
use crate::gates::AllBegin;
use book_core::Book;
use book_solve::open;
use flip_cnf::Frame;
use instance_json::read_instance;
use std::alloc::{AllocError, Global};
use std::sync::{Arc, Wait};
use std::test::Fail;
use std::thread::Threads;
use tri_check::Instance;
use worker_crew::{Gate, run_turns};
use worker_pool::{Limits, Outcome, Outcomes};

const SQUARE: &str =
    r#"{"instance_uid":"square","points_x":[0,2,2,0],"points_y":[0,0,2,2],"triangulations":[[[0,2]],[[1,3]]]}"#;

fn square(alloc: Global) -> Result<Arc<Instance>, Fail> {
    let Ok(raw) = read_instance(alloc, SQUARE.as_bytes()) else {
        return Err(Fail::from(AllocError));
    };
    Ok(Instance::check(alloc, raw)?)
}

// One improver's turn and one prover's, by two workers.
fn two_turns<R: Threads + Wait + Sync, G: Gate + Sync>(
    rt: &R,
    alloc: Global,
    gate: &G,
) -> Result<(Book, Outcomes), Fail> {
    let limits = Limits {
        seed: 1,
        turns: 1,
        budget: 50_000,
    };
    let book = open(alloc, square(alloc)?, 6)?;
    let frame = Frame::of(alloc, book.plan().inst())?;
    let Ok(run) = run_turns(rt, alloc, book, &frame, &limits, 2, gate) else {
        return Err(Fail::from(AllocError));
    };
    Ok(run)
}

#[test]
fn each_turn_of_two_workers_has_its_outcome(rt: HostRuntime) -> Result<(), Fail> {
    let gate = AllBegin::new(1, 2);
    let (book, outcomes) = two_turns(&rt, rt.alloc(), &gate)?;
    let expected = [Outcome::NotBetter { base: 0 }, Outcome::Kept { place: 0 }];
    assert!(rt; gate.seen() == 1 && book.len() == 1);
    assert!(rt; outcomes.as_slice() == expected.as_slice());
    Ok(())
}
