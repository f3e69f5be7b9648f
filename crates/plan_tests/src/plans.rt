// The square with the diagonal 1-3 as its only input and 0-2 as the centre.
use crate::openings::{expect_input, square};
use crate::polygons::edge;
use crate::swaps::save;
use edge_table::Edge;
use plan_core::*;
use std::alloc::AllocError;
use std::process::Abort;
use std::test::Fail;

fn total_after(rt: &impl Abort, plan: &Plan, e: Edge) -> u128 {
    assert!(rt; plan.flips(e));
    plan.total_after(e)
}

fn follow(rt: &impl Abort, plan: &mut Plan, e: Edge) -> Result<Edge, AllocError> {
    assert!(rt; plan.flips(e));
    plan.reserve(1)?;
    Ok(plan.follow(e))
}

// The total, what it would be after the flip of an edge, the edge's image, and the total after the flip.
fn flipped(
    rt: &impl Abort,
    plan: &mut Plan,
    e: Edge,
) -> Result<(u128, u128, Edge, u128), AllocError> {
    let before = plan.total();
    let told = total_after(rt, plan, e);
    let image = follow(rt, plan, e)?;
    Ok((before, told, image, plan.total()))
}

fn scheduled_rounds(rt: &impl Abort, plan: &Plan) -> Result<usize, AllocError> {
    expect_input(rt, plan.inst(), 0);
    let rounds = plan.schedule(0)?;
    Ok(rounds.len())
}

fn centre_has(plan: &Plan, e: Edge) -> Result<bool, AllocError> {
    let centre = plan.centre()?;
    Ok(centre.has(e))
}

fn move_count(plan: &Plan) -> Result<usize, AllocError> {
    let moves = plan.moves()?;
    let copy = moves.copy()?;
    Ok(copy.len())
}

// Whether the centre has an edge, and the numbers of the moves and of the rounds of the first input.
fn seen(rt: &impl Abort, plan: &Plan, e: Edge) -> Result<(bool, usize, usize), AllocError> {
    let has = centre_has(plan, e)?;
    let moves = move_count(plan)?;
    let rounds = scheduled_rounds(rt, plan)?;
    Ok((has, moves, rounds))
}

fn seen_of_copy(rt: &impl Abort, plan: &Plan, e: Edge) -> Result<(bool, usize, usize), AllocError> {
    let copy = plan.copy()?;
    seen(rt, &copy, e)
}

#[test]
fn the_diagonal_flips_back(rt: HostRuntime) -> Result<(), Fail> {
    let mut plan = square(&rt, rt.alloc(), &[(1, 3)])?;
    let (before, told, image, after) = flipped(&rt, &mut plan, edge(&rt, 0, 2))?;
    assert!(rt; (before, told, after) == (1, 0, 0) && image == edge(&rt, 1, 3));
    Ok(())
}

#[test]
fn a_copy_has_the_centre_and_its_moves(rt: HostRuntime) -> Result<(), Fail> {
    let plan = square(&rt, rt.alloc(), &[(1, 3)])?;
    let seen = seen_of_copy(&rt, &plan, edge(&rt, 0, 2))?;
    assert!(rt; seen == (true, 2, 1));
    Ok(())
}

// The flip of 1-3, its undoing and the flip once more give way to one flip.
#[test]
fn one_round_saves_two(rt: HostRuntime) -> Result<(), Fail> {
    let mut plan = square(&rt, rt.alloc(), &[(1, 3), (0, 2), (1, 3)])?;
    assert!(rt; save(&rt, rt.alloc(), &mut plan, 0, &[&[(1, 3)]], 2, 1)?);
    Ok(())
}
