// The square with ample memory: its diagonal flips in one round, and that is where the other input is.
use crate::polygons::{both_diagonals, edge, expect_input, one_round};
use edge_table::{Edge, Rounds, RoundsList};
use replay::*;
use std::alloc::{AllocError, Global};
use std::process::Abort;
use std::test::Fail;
use tri_check::Instance;

fn lists(alloc: Global, e: Edge) -> Result<RoundsList, AllocError> {
    let mut lists = RoundsList::make(alloc);
    lists.push(one_round(alloc, e)?)?;
    lists.push(Rounds::make(alloc))?;
    Ok(lists)
}

// Whether one round of an edge leads the first input to one that has another edge.
fn leads_to(
    rt: &impl Abort,
    alloc: Global,
    inst: &Instance,
    flip: Edge,
    e: Edge,
) -> Result<bool, Fail> {
    expect_input(rt, inst, 0);
    let rounds = one_round(alloc, flip)?;
    let end = replay(alloc, inst.input(0), &rounds)?;
    Ok(end.has(e))
}

// The total of one round of an edge for the first input and none for the second.
fn total(alloc: Global, inst: &Instance, flip: Edge) -> Result<u128, Fail> {
    let lists = lists(alloc, flip)?;
    let scored = score(alloc, inst, &lists)?;
    Ok(scored.total)
}

#[test]
fn a_round_flips_the_diagonal(rt: HostRuntime) -> Result<(), Fail> {
    let inst = both_diagonals(rt.alloc())?;
    assert!(rt; inst.inputs() == 2);
    assert!(rt; leads_to(&rt, rt.alloc(), &inst, edge(&rt, 0, 2), edge(&rt, 1, 3))?);
    Ok(())
}

#[test]
fn the_inputs_are_one_round_apart(rt: HostRuntime) -> Result<(), Fail> {
    let inst = both_diagonals(rt.alloc())?;
    assert!(rt; total(rt.alloc(), &inst, edge(&rt, 0, 2))? == 1);
    Ok(())
}
