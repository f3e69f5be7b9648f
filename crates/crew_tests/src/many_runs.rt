// A hundred runs of eight workers on twelve points with six inputs, drawn at random. Whatever the order in which the workers came to the book, what they left is accepted.
ghost use Rattle.std.specs.Prelude.{◌≤◌};

use crate::words::{line_of, prints};
use host_io::MemStore;
use std::alloc::Global;
use std::sync::Wait;
use std::test::Fail;
use std::thread::Threads;
use worker_crew::NoGate;

const DRAWN: &str =
    r#"{"instance_uid":"random","points_x":[26,28,18,7,34,8,30,22,17,30,27,14],"points_y":[14,34,27,24,36,24,11,12,30,12,21,5],"triangulations":[[[0,4],[0,6],[0,7],[0,9],[0,10],[0,11],[2,3],[2,4],[2,5],[2,11],[3,4],[3,5],[4,7],[4,8],[4,9],[4,10],[4,11],[5,11],[6,9],[7,10],[7,11]],[[0,5],[0,6],[0,9],[1,2],[1,3],[2,3],[2,4],[2,5],[2,10],[3,5],[3,7],[4,9],[4,10],[5,6],[5,7],[5,9],[5,10],[6,7],[6,9],[7,11],[9,10]],[[0,2],[0,5],[0,6],[0,7],[0,11],[1,2],[1,3],[1,5],[1,9],[1,10],[2,5],[2,6],[2,9],[2,10],[3,5],[4,9],[5,7],[5,11],[6,9],[7,11],[9,10]],[[0,2],[0,6],[0,7],[0,11],[1,2],[2,3],[2,4],[2,5],[2,6],[2,7],[2,8],[2,10],[2,11],[3,5],[4,9],[4,10],[5,11],[6,9],[6,10],[7,11],[9,10]],[[0,2],[0,6],[0,7],[1,9],[1,10],[2,5],[2,6],[2,7],[2,8],[2,11],[3,5],[4,9],[5,8],[5,11],[6,7],[6,8],[6,9],[7,11],[8,9],[8,10],[9,10]],[[0,5],[0,7],[0,9],[1,3],[1,5],[2,4],[2,5],[2,10],[3,5],[4,5],[4,9],[4,10],[5,7],[5,9],[5,10],[5,11],[6,7],[6,9],[7,9],[7,11],[9,10]]]}"#;

// Whether `verify` accepts what `solve` writes with this seed, with the numbers that `solve` printed.
fn is_accepted<R: Threads + Wait + Sync>(rt: &R, alloc: Global, seed: u64) -> Result<bool, Fail> {
    let mut store = MemStore::make(alloc);
    store.hold("i", DRAWN.as_bytes())?;
    let seed = format!(in alloc; "{seed}")?;
    let words = [
        "solve",
        "i",
        "s",
        "c",
        "--workers",
        "8",
        "--turns",
        "16",
        "--seed",
        seed.as_str(),
    ];
    let Some(solved) = line_of(rt, alloc, &mut store, &words, &NoGate)? else {
        return Ok(false);
    };
    let yes = format!(in alloc; "yes {solved}")?;
    let words = ["verify", "i", "s", "c"];
    prints(rt, alloc, &mut store, &words, &NoGate, yes.as_str())
}

// Whether all runs with 25 seeds from the first one on are accepted.
fn are_accepted<R: Threads + Wait + Sync>(rt: &R, alloc: Global, first: u64) -> Result<bool, Fail>
    requires { first ≤ 1000 }
{
    for seed in first..first + 25 {
        if !is_accepted(rt, alloc, seed)? {
            return Ok(false);
        }
    }
    Ok(true)
}

#[test]
fn what_workers_leave_is_accepted_with_the_first_seeds(rt: HostRuntime) -> Result<(), Fail> {
    assert!(rt; are_accepted(&rt, rt.alloc(), 0)?);
    Ok(())
}

#[test]
fn what_workers_leave_is_accepted_with_the_next_seeds(rt: HostRuntime) -> Result<(), Fail> {
    assert!(rt; are_accepted(&rt, rt.alloc(), 25)?);
    Ok(())
}

#[test]
fn what_workers_leave_is_accepted_with_later_seeds(rt: HostRuntime) -> Result<(), Fail> {
    assert!(rt; are_accepted(&rt, rt.alloc(), 50)?);
    Ok(())
}

#[test]
fn what_workers_leave_is_accepted_with_the_last_seeds(rt: HostRuntime) -> Result<(), Fail> {
    assert!(rt; are_accepted(&rt, rt.alloc(), 75)?);
    Ok(())
}
