// The pentagon: its fans at 0 and at 1 differ by one edge that two members cross.
use crate::polygons::{PENTAGON, edge, expect_input, instance};
use cross_bound::*;
use std::alloc::{AllocError, Global};
use std::process::Abort;
use std::sync::Arc;
use std::test::Fail;
use tri_check::Instance;

// The fan at 0, the fan at 1, and the fan at 0 once more as inputs.
fn pentagon(alloc: Global) -> Result<Arc<Instance>, Fail> {
    let fan = [(0, 2), (0, 3)];
    instance(alloc, &PENTAGON, &[&fan, &[(1, 3), (1, 4)], &fan])
}

// The bound of the first input and another one.
fn bound_to(
    rt: &impl Abort,
    alloc: Global,
    inst: &Instance,
    t: u32,
) -> Result<CrossBound, AllocError> {
    expect_input(rt, inst, 0);
    expect_input(rt, inst, t);
    cross_bound(alloc, inst.input(0), inst.input(t))
}

#[test]
fn the_fans_of_a_pentagon_are_two_rounds_apart(rt: HostRuntime) -> Result<(), Fail> {
    let instance = pentagon(rt.alloc())?;
    let bound = bound_to(&rt, rt.alloc(), &instance, 1)?;
    let wanted = CrossBound::Crossed {
        from: Side::First,
        edge: edge(&rt, 0, 2),
        count: 2,
        lower: 2,
    };
    assert!(rt; instance.inputs() == 3 && bound == wanted);
    Ok(())
}

#[test]
fn equal_fans_are_the_same(rt: HostRuntime) -> Result<(), Fail> {
    let instance = pentagon(rt.alloc())?;
    let bound = bound_to(&rt, rt.alloc(), &instance, 2)?;
    assert!(rt; instance.inputs() == 3 && bound == CrossBound::Same);
    Ok(())
}
