// Points on circles with ample memory: which flips lead to the centre, with which images, and which input is past the budget.
use crate::polygons::{HEXAGON, OCTAGON, SQUARE, both_diagonals, edge, expect_input, instance};
use edge_table::{Edge, EdgeSeq, Rounds};
use lawson_law::run_bound;
use lawson_start::*;
use std::alloc::Global;
use std::process::Abort;
use std::test::Fail;
use tri_check::Instance;

// The first centre of a polygon with these diagonals as its only input.
fn opened(alloc: Global, corners: &[(i64, i64)], diagonals: &[(i64, i64)]) -> Result<Start, Fail> {
    let inst = instance(alloc, corners, &[diagonals])?;
    Ok(start(alloc, &inst, 10)?)
}

fn has_only(edges: &EdgeSeq, e: Edge) -> bool {
    edges.len() == 1 && *edges.at(0) == e
}

fn is_round(rounds: &Rounds, i: usize, e: Edge) -> bool {
    i < rounds.len() && has_only(rounds.at(i), e)
}

// Whether the rounds have one edge each, from one corner to these others in turn.
fn are_from(rt: &impl Abort, rounds: &Rounds, a: u32, ends: &[u32]) -> bool {
    for i in 0..ends.len() {
        if !is_round(rounds, i, edge(rt, a, ends[i])) {
            return false;
        }
    }
    rounds.len() == ends.len()
}

// Whether the first input leads to the centre by such rounds.
fn turns_by(rt: &impl Abort, opening: &Start, a: u32, ends: &[u32]) -> Result<bool, Fail> {
    assert!(rt; 0 < opening.tracks.len());
    let rounds = opening.tracks.at(0).grouped()?;
    Ok(are_from(rt, &rounds, a, ends))
}

#[test]
fn the_square_flips_once(rt: HostRuntime) -> Result<(), Fail> {
    let opening = opened(rt.alloc(), &SQUARE, &[(1, 3)])?;
    assert!(rt; turns_by(&rt, &opening, 1, &[3])?);
    assert!(rt; opening.centre.has(edge(&rt, 0, 2)));
    Ok(())
}

#[test]
fn the_centre_of_the_square_stays(rt: HostRuntime) -> Result<(), Fail> {
    let opening = opened(rt.alloc(), &SQUARE, &[(0, 2)])?;
    assert!(rt; turns_by(&rt, &opening, 0, &[])?);
    Ok(())
}

#[test]
fn the_hexagon_flips_to_the_fan_at_its_first_corner(rt: HostRuntime) -> Result<(), Fail> {
    let opening = opened(rt.alloc(), &HEXAGON, &[(1, 3), (1, 4), (1, 5)])?;
    assert!(rt; turns_by(&rt, &opening, 1, &[5, 4, 3])?);
    assert!(rt; opening.centre.has(edge(&rt, 0, 3)));
    Ok(())
}

#[test]
fn the_octagon_flips_one_diagonal_after_the_other(rt: HostRuntime) -> Result<(), Fail> {
    let fan = [(1, 3), (1, 4), (1, 5), (1, 6), (1, 7)];
    let opening = opened(rt.alloc(), &OCTAGON, &fan)?;
    assert!(rt; turns_by(&rt, &opening, 1, &[7, 6, 5, 4, 3])?);
    Ok(())
}

// The fault of the first centre within a budget of flips, None where there is none.
fn fault(alloc: Global, inst: &Instance, budget: u64) -> Option<StartFault> {
    start(alloc, inst, budget).err()
}

#[test]
fn the_first_input_past_the_budget_is_named(rt: HostRuntime) -> Result<(), Fail> {
    let inst = both_diagonals(rt.alloc())?;
    assert!(rt; fault(rt.alloc(), &inst, 0) == Some(StartFault::FlipBudget(1)));
    Ok(())
}

// Whether the trace of the second input is the flip of one edge, with this image.
fn is_traced(
    rt: &impl Abort,
    alloc: Global,
    inst: &Instance,
    flip: Edge,
    image: Edge,
) -> Result<bool, Fail> {
    expect_input(rt, inst, 1);
    let traced = trace(alloc, inst, 1)?;
    Ok(has_only(&traced.flips, flip) && has_only(&traced.images, image))
}

#[test]
fn the_trace_of_the_square_has_one_flip_with_its_image(rt: HostRuntime) -> Result<(), Fail> {
    let inst = both_diagonals(rt.alloc())?;
    assert!(rt; is_traced(&rt, rt.alloc(), &inst, edge(&rt, 1, 3), edge(&rt, 0, 2))?);
    Ok(())
}

#[test]
fn four_points_allow_six_flips(rt: HostRuntime) -> Result<(), Fail> {
    assert_eq!(rt; run_bound(4), 6);
    Ok(())
}
