// Another list for an input: the octagon's one in four rounds that its opening's five give way to.
use crate::openings::{expect_input, octagon};
use crate::polygons::rounds_of;
use edge_table::Rounds;
use plan_core::{Plan, SwapFault};
use plan_moves::*;
use std::alloc::Global;
use std::process::Abort;
use std::test::Fail;

pub(crate) const FOUR_ROUNDS: [&[(u32, u32)]; 4] = [
    &[(1, 4), (1, 6)],
    &[(1, 7)],
    &[(1, 5), (5, 7)],
    &[(1, 3), (3, 5)],
];

fn swap(rt: &impl Abort, plan: &mut Plan, t: u32, rounds: &Rounds) -> Result<u64, SwapFault> {
    expect_input(rt, plan.inst(), t);
    plan.swap(t, rounds)
}

fn is_saved(answer: &Result<u64, SwapFault>, saved: u64) -> bool {
    match answer {
        Ok(n) => *n == saved,
        Err(_) => false,
    }
}

fn is_not_fewer(answer: &Result<u64, SwapFault>, rounds: u64) -> bool {
    match answer {
        Err(SwapFault::NotFewer { held, given }) => *held == rounds && *given == rounds,
        _ => false,
    }
}

// Whether the rounds save so many for an input and leave this total, which is the input's own, and are not fewer the next time.
fn saves(
    rt: &impl Abort,
    plan: &mut Plan,
    t: u32,
    rounds: &Rounds,
    saved: u64,
    total: u64,
) -> bool {
    let first = swap(rt, plan, t, rounds);
    let rest = plan.total();
    let second = swap(rt, plan, t, rounds);
    is_saved(&first, saved) && rest == u128::from(total) && is_not_fewer(&second, total)
}

// Whether these rounds do so.
pub(crate) fn save(
    rt: &impl Abort,
    alloc: Global,
    plan: &mut Plan,
    t: u32,
    lists: &[&[(u32, u32)]],
    saved: u64,
    total: u64,
) -> Result<bool, Fail> {
    let rounds = rounds_of(rt, alloc, lists)?;
    Ok(saves(rt, plan, t, &rounds, saved, total))
}

#[test]
fn four_rounds_stand_in_place_of_five(rt: HostRuntime) -> Result<(), Fail> {
    let mut plan = octagon(rt.alloc())?;
    assert!(rt; plan.total() == 5);
    assert!(rt; save(&rt, rt.alloc(), &mut plan, 1, &FOUR_ROUNDS, 1, 4)?);
    Ok(())
}
