// Pruned formulas of small polygons, the rounds that models of them tell, and the largest formula that is built.
ghost use Rattle.std.specs.Prelude.{◌<◌, ◌≤◌};

use crate::polygons::{HEXAGON, PENTAGON, SQUARE, expect_three, parabola, polygon};
use edge_table::{Edge, Rounds};
use flip_cnf::{BuildFault, Frame};
use rup_check::Cnf;
use sat_search::{Answer, solve};
use std::alloc::Global;
use std::process::Abort;
use std::test::Fail;
use tri_check::Instance;

// The pruned formula of `k` rounds from input 0 to another one or itself, or why there is none.
fn built(
    rt: &impl Abort,
    alloc: Global,
    inst: &Instance,
    to: u32,
    k: u32,
) -> Result<Cnf, BuildFault>
    requires to { to < 3 }
    requires rounds { k ≤ 400_000 }
{
    expect_three(rt, inst);
    let frame = Frame::of(alloc, inst)?;
    frame.build2(inst, 0, to, k)
}

// The number of empty clauses.
fn empties(cnf: &Cnf) -> u32 {
    let mut count: u32 = 0;
    for n in 0..cnf.len() {
        if cnf.clause(n).is_empty() {
            count = count.saturating_add(1);
        }
    }
    count
}

// The numbers of the variables, of the clauses and of the empty clauses.
fn counts(
    rt: &impl Abort,
    alloc: Global,
    inst: &Instance,
    to: u32,
    k: u32,
) -> Result<(u32, u32, u32), BuildFault>
    requires to { to < 3 }
    requires rounds { k ≤ 400_000 }
{
    let cnf = built(rt, alloc, inst, to, k)?;
    Ok((cnf.vars(), cnf.len(), empties(&cnf)))
}

// The numbers of variables, of clauses and of empty clauses for an input and a number of rounds are as wanted, or there is none for this fault.
fn must_have(
    rt: &impl Abort,
    alloc: Global,
    inst: &Instance,
    to: u32,
    k: u32,
    wanted: Result<(u32, u32, u32), BuildFault>,
) -> Result<(), Fail> {
    assert!(rt; to < 3 && k <= 400_000);
    let found = counts(rt, alloc, inst, to, k);
    if found == wanted {
        Ok(())
    } else {
        Err(Fail::new(format_args!("{found:?} for {k} rounds to {to}, where {wanted:?} is wanted")))
    }
}

// For each row the corners, the input that is gone to, the number of rounds, and what is counted.
const OF_SQUARE: [(&[(i64, i64)], u32, u32, (u32, u32, u32)); 3] = [
    (&SQUARE, 1, 0, (4, 10, 2)),
    (&SQUARE, 1, 1, (11, 30, 0)),
    (&SQUARE, 0, 2, (18, 55, 0)),
];

const OF_MORE: [(&[(i64, i64)], u32, u32, (u32, u32, u32)); 3] = [
    (&PENTAGON, 1, 1, (12, 26, 2)),
    (&PENTAGON, 1, 2, (24, 66, 0)),
    (&HEXAGON, 1, 2, (28, 59, 0)),
];

fn must_have_each(
    rt: &impl Abort,
    alloc: Global,
    rows: &[(&[(i64, i64)], u32, u32, (u32, u32, u32))],
) -> Result<(), Fail> {
    for row in rows {
        let inst = polygon(alloc, row.0)?;
        must_have(rt, alloc, &inst, row.1, row.2, Ok(row.3))?;
    }
    Ok(())
}

#[test]
fn pruned_formulas_of_a_square(rt: HostRuntime) -> Result<(), Fail> {
    must_have_each(&rt, rt.alloc(), &OF_SQUARE)
}

#[test]
fn pruned_formulas_of_a_pentagon_and_a_hexagon(rt: HostRuntime) -> Result<(), Fail> {
    must_have_each(&rt, rt.alloc(), &OF_MORE)
}

#[test]
fn the_largest_formula_of_a_square_is_built(rt: HostRuntime) -> Result<(), Fail> {
    let inst = polygon(rt.alloc(), &SQUARE)?;
    must_have(&rt, rt.alloc(), &inst, 0, 10_811, Ok((86_490, 399_988, 0)))?;
    must_have(
        &rt,
        rt.alloc(),
        &inst,
        0,
        10_812,
        Err(BuildFault::TooLarge(400_025)),
    )
}

#[test]
fn sixty_five_points_have_no_pruned_formula(rt: HostRuntime) -> Result<(), Fail> {
    let inst = parabola(rt.alloc(), 65)?;
    must_have(
        &rt,
        rt.alloc(),
        &inst,
        1,
        6,
        Err(BuildFault::ManyPoints(65)),
    )
}

// What a search of a pruned formula finds: rounds, or that there are none, or neither.
#[derive(Debug, Drop)]
enum Found {
    Met(Rounds),
    Refuted,
    Spent,
}

fn solved(
    rt: &impl Abort,
    alloc: Global,
    inst: &Instance,
    to: u32,
    k: u32,
) -> Result<Found, BuildFault>
    requires to { to < 3 }
    requires rounds { k ≤ 400_000 }
{
    expect_three(rt, inst);
    let frame = Frame::of(alloc, inst)?;
    let cnf = frame.build2(inst, 0, to, k)?;
    match solve(alloc, &cnf, 50_000)? {
        Answer::Sat(truth) => Ok(Found::Met(frame.decode2(inst, 0, to, k, &truth)?)),
        Answer::Refuted(_) => Ok(Found::Refuted),
        Answer::Spent(_) => Ok(Found::Spent),
    }
}

// Whether rounds of these edges were found, one in each.
fn are_flips(found: &Found, edges: &[Option<Edge>]) -> bool {
    let Found::Met(rounds) = found else {
        return false;
    };
    if rounds.len() != edges.len() {
        return false;
    }
    for (t, edge) in edges.iter().enumerate() {
        let round = rounds.at(t);
        if round.len() != 1 || Some(*round.at(0)) != *edge {
            return false;
        }
    }
    true
}

// A search for so many rounds finds that there are none.
fn must_refute(rt: &impl Abort, alloc: Global, corners: &[(i64, i64)], k: u32) -> Result<(), Fail>
    requires { k ≤ 400_000 }
{
    let inst = polygon(alloc, corners)?;
    match solved(rt, alloc, &inst, 1, k)? {
        Found::Refuted => Ok(()),
        found => Err(Fail::new(format_args!("{found:?}, where none is wanted"))),
    }
}

// A search for as many rounds as there are edges finds rounds of one edge each, which are these.
fn must_find(
    rt: &impl Abort,
    alloc: Global,
    corners: &[(i64, i64)],
    k: u32,
    edges: &[Option<Edge>],
) -> Result<(), Fail>
    requires { k ≤ 400_000 }
{
    let inst = polygon(alloc, corners)?;
    let found = solved(rt, alloc, &inst, 1, k)?;
    if are_flips(&found, edges) {
        Ok(())
    } else {
        Err(Fail::new(format_args!("{found:?}, where {edges:?} is wanted")))
    }
}

// A search for two rounds from an input to itself finds some.
fn must_meet(rt: &impl Abort, alloc: Global, corners: &[(i64, i64)]) -> Result<(), Fail> {
    let inst = polygon(alloc, corners)?;
    match solved(rt, alloc, &inst, 0, 2)? {
        Found::Met(_) => Ok(()),
        found => Err(Fail::new(format_args!("{found:?}, where rounds are wanted"))),
    }
}

#[test]
fn rounds_of_a_square_are_found(rt: HostRuntime) -> Result<(), Fail> {
    must_refute(&rt, rt.alloc(), &SQUARE, 0)?;
    must_find(&rt, rt.alloc(), &SQUARE, 1, &[Edge::of(0, 2)])?;
    must_meet(&rt, rt.alloc(), &SQUARE)
}

#[test]
fn rounds_of_a_pentagon_are_found(rt: HostRuntime) -> Result<(), Fail> {
    must_refute(&rt, rt.alloc(), &PENTAGON, 1)?;
    must_find(
        &rt,
        rt.alloc(),
        &PENTAGON,
        2,
        &[Edge::of(0, 2), Edge::of(0, 3)],
    )
}

#[test]
fn two_rounds_of_a_hexagon_are_not_found(rt: HostRuntime) -> Result<(), Fail> {
    must_refute(&rt, rt.alloc(), &HEXAGON, 2)
}
