// The square and a hexagon, each with one input and a centre one round away from it.
use crate::openings::{hexagon, square};
use crate::polygons::are_edges;
use plan_core::{MoveList, Plan};
use plan_moves::*;
use std::alloc::{AllocError, Global};
use std::process::Abort;
use std::test::Fail;

fn is_only_move(rt: &impl Abort, made: &MoveList, ends: &[(u32, u32)]) -> bool {
    made.len() == 1 && are_edges(rt, made.at(0), ends)
}

// Whether a plan settles by one move of these edges.
fn settles_by(
    rt: &impl Abort,
    alloc: Global,
    plan: &mut Plan,
    ends: &[(u32, u32)],
) -> Result<bool, AllocError> {
    let made = settle(alloc, plan)?;
    Ok(is_only_move(rt, &made, ends))
}

// Whether it does so from the total 1 to the total 0.
fn settles(
    rt: &impl Abort,
    alloc: Global,
    plan: &mut Plan,
    ends: &[(u32, u32)],
) -> Result<bool, AllocError> {
    let before = plan.total();
    let is_moved = settles_by(rt, alloc, plan, ends)?;
    Ok(before == 1 && is_moved && plan.total() == 0)
}

#[test]
fn the_square_settles_by_its_diagonal(rt: HostRuntime) -> Result<(), Fail> {
    let mut plan = square(&rt, rt.alloc(), &[(1, 3)])?;
    assert!(rt; settles(&rt, rt.alloc(), &mut plan, &[(0, 2)])?);
    Ok(())
}

#[test]
fn the_hexagon_settles_by_the_images_of_its_round(rt: HostRuntime) -> Result<(), Fail> {
    let mut plan = hexagon(&rt, rt.alloc())?;
    assert!(rt; settles(&rt, rt.alloc(), &mut plan, &[(1, 5), (2, 4)])?);
    Ok(())
}
