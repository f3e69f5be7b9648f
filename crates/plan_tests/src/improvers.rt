// Walks and descents: on the square, and for the second fan of the octagon.
use crate::openings::{both_diagonals, expect_input, octagon, square};
use crate::polygons::{are_edges, are_rounds};
use crate::swaps::FOUR_ROUNDS;
use plan_core::Plan;
use plan_moves::*;
use rand_core::Rng;
use std::alloc::{AllocError, Global};
use std::process::Abort;
use std::test::Fail;

const FIVE_ROUNDS: [&[(u32, u32)]; 5] = [&[(1, 7)], &[(1, 6)], &[(1, 5)], &[(1, 4)], &[(1, 3)]];

// Whether the schedule of the second input is of these edges.
fn has_schedule(rt: &impl Abort, plan: &Plan, lists: &[&[(u32, u32)]]) -> Result<bool, AllocError> {
    expect_input(rt, plan.inst(), 1);
    let rounds = plan.schedule(1)?;
    Ok(are_rounds(rt, &rounds, lists))
}

fn descend_for_second(rt: &impl Abort, alloc: Global, plan: &Plan) -> Result<Descent, AllocError> {
    expect_input(rt, plan.inst(), 1);
    descend(alloc, plan, 1)
}

fn is_better_by(rt: &impl Abort, descent: &Descent, lists: &[&[(u32, u32)]]) -> bool {
    match descent {
        Descent::Better(found) => are_rounds(rt, found, lists),
        Descent::NotBetter { .. } | Descent::Stuck(_) => false,
    }
}

// Whether a descent for the second input finds rounds of these edges.
fn descends_by(
    rt: &impl Abort,
    alloc: Global,
    plan: &Plan,
    lists: &[&[(u32, u32)]],
) -> Result<bool, AllocError> {
    let descent = descend_for_second(rt, alloc, plan)?;
    Ok(is_better_by(rt, &descent, lists))
}

// Whether a descent for the second input finds so many rounds, as many as are held.
fn is_not_better(
    rt: &impl Abort,
    alloc: Global,
    plan: &Plan,
    rounds: u64,
) -> Result<bool, AllocError> {
    match descend_for_second(rt, alloc, plan)? {
        Descent::NotBetter { held, given } => Ok(held == rounds && given == rounds),
        Descent::Better(_) | Descent::Stuck(_) => Ok(false),
    }
}

// The totals before and after four improvers' turns from a seed.
fn improved(alloc: Global, plan: &mut Plan) -> Result<(u128, u128), Fail> {
    let before = plan.total();
    improve(alloc, plan, 4, 7)?;
    Ok((before, plan.total()))
}

// Whether a walk that begins with this seed is better, by these edges.
fn walks_by(
    rt: &impl Abort,
    alloc: Global,
    plan: &Plan,
    seed: u64,
    ends: &[(u32, u32)],
) -> Result<bool, Fail> {
    match walk_turn(alloc, plan, &mut walker(seed, 0))? {
        Walk::Better(found) => Ok(are_edges(rt, &found, ends)),
        Walk::NotBetter => Ok(false),
    }
}

fn walk_is_no_better(alloc: Global, plan: &Plan, seed: u64) -> Result<bool, Fail> {
    match walk_turn(alloc, plan, &mut walker(seed, 0))? {
        Walk::Better(_) => Ok(false),
        Walk::NotBetter => Ok(true),
    }
}

#[test]
fn the_opening_of_the_octagon_flips_one_edge_a_round(rt: HostRuntime) -> Result<(), Fail> {
    let plan = octagon(rt.alloc())?;
    assert!(rt; has_schedule(&rt, &plan, &FIVE_ROUNDS)?);
    Ok(())
}

#[test]
fn a_descent_needs_four_rounds(rt: HostRuntime) -> Result<(), Fail> {
    let plan = octagon(rt.alloc())?;
    assert!(rt; descends_by(&rt, rt.alloc(), &plan, &FOUR_ROUNDS)?);
    Ok(())
}

#[test]
fn improvers_take_the_descent_and_then_it_is_no_better(rt: HostRuntime) -> Result<(), Fail> {
    let mut plan = octagon(rt.alloc())?;
    assert!(rt; improved(rt.alloc(), &mut plan)? == (5, 4));
    assert!(rt; is_not_better(&rt, rt.alloc(), &plan, 4)?);
    Ok(())
}

#[test]
fn a_walk_flips_the_only_diagonal_back(rt: HostRuntime) -> Result<(), Fail> {
    let plan = square(&rt, rt.alloc(), &[(1, 3)])?;
    assert!(rt; walks_by(&rt, rt.alloc(), &plan, 7, &[(0, 2)])?);
    Ok(())
}

#[test]
fn no_walk_is_better_than_one_diagonal_of_both(rt: HostRuntime) -> Result<(), Fail> {
    let plan = both_diagonals(rt.alloc())?;
    assert!(rt; plan.total() == 1);
    assert!(rt; walk_is_no_better(rt.alloc(), &plan, 0)?);
    Ok(())
}

#[test]
fn a_walker_draws_the_words_of_the_reference_generator(rt: HostRuntime) {
    assert!(rt; walker(42, 54).next_u32() == 0xa15c02b7);
}
