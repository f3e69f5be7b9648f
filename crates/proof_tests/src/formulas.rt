// Formulas of small polygons, a model of one, and polygons that are too large.
ghost use Rattle.std.specs.Prelude.{◌≡◌, ◌≤◌, IsTrue};
ghost use Rattle.log_law.specs.Clauses.{IsModel, IsSatisfied, listed};

use crate::polygons::{HEXAGON, PENTAGON, SQUARE, expect_three, parabola, polygon};
use edge_table::{Edge, Rounds};
use flip_cnf::*;
use rup_check::{Clause, Cnf, Truth};
use std::alloc::{AllocError, Global};
use std::process::Abort;
use std::test::Fail;
use tri_check::Instance;

// The size of the formula of `k` rounds from input 0 to input 1, and the numbers of its variables and clauses, or why there is none.
fn counts(
    rt: &impl Abort,
    alloc: Global,
    inst: &Instance,
    k: u32,
) -> Result<(Option<u64>, Result<(u32, u32), BuildFault>), AllocError>
    requires { k ≤ 400_000 }
{
    expect_three(rt, inst);
    let frame = Frame::of(alloc, inst)?;
    let size = frame.size(k);
    match frame.build(inst, 0, 1, k) {
        Ok(cnf) => Ok((size, Ok((cnf.vars(), cnf.len())))),
        Err(fault) => Ok((size, Err(fault))),
    }
}

// Both are as wanted.
fn must_have(
    rt: &impl Abort,
    alloc: Global,
    inst: &Instance,
    k: u32,
    wanted: (Option<u64>, Result<(u32, u32), BuildFault>),
) -> Result<(), Fail> {
    assert!(rt; k <= 400_000);
    let found = counts(rt, alloc, inst, k)?;
    if found == wanted {
        Ok(())
    } else {
        Err(Fail::new(format_args!("{found:?} for {k} rounds, where {wanted:?} is wanted")))
    }
}

// For each row the corners, the number of rounds, and the numbers of the variables and clauses.
const SMALL: [(&[(i64, i64)], u32, u32, u32); 5] = [
    (&SQUARE, 0, 6, 13),
    (&SQUARE, 1, 14, 50),
    (&PENTAGON, 1, 30, 170),
    (&PENTAGON, 2, 50, 315),
    (&HEXAGON, 2, 105, 855),
];

// Each row has so many, and its size is the number of clauses.
fn must_have_each(
    rt: &impl Abort,
    alloc: Global,
    rows: &[(&[(i64, i64)], u32, u32, u32)],
) -> Result<(), Fail> {
    for row in rows {
        let inst = polygon(alloc, row.0)?;
        let wanted = (Some(u64::from(row.3)), Ok((row.2, row.3)));
        must_have(rt, alloc, &inst, row.1, wanted)?;
    }
    Ok(())
}

#[test]
fn sizes_of_small_polygons(rt: HostRuntime) -> Result<(), Fail> {
    must_have_each(&rt, rt.alloc(), &SMALL)
}

// The formula of so many points of a parabola has this size and isn't built, for this fault.
fn must_refuse(
    rt: &impl Abort,
    alloc: Global,
    count: u32,
    k: u32,
    size: Option<u64>,
    fault: BuildFault,
) -> Result<(), Fail> {
    let inst = parabola(alloc, count)?;
    must_have(rt, alloc, &inst, k, (size, Err(fault)))
}

#[test]
fn a_polygon_of_twenty_is_too_large(rt: HostRuntime) -> Result<(), Fail> {
    let fault = BuildFault::TooLarge(491_245);
    must_refuse(&rt, rt.alloc(), 20, 4, Some(491_245), fault)
}

#[test]
fn a_polygon_of_sixty_four_is_too_large(rt: HostRuntime) -> Result<(), Fail> {
    let fault = BuildFault::TooLarge(95_970_000);
    must_refuse(&rt, rt.alloc(), 64, 6, Some(95_970_000), fault)
}

#[test]
fn a_polygon_of_sixty_five_has_no_formula(rt: HostRuntime) -> Result<(), Fail> {
    must_refuse(&rt, rt.alloc(), 65, 6, None, BuildFault::ManyPoints(65))
}

// What an assignment says of a variable.
fn value(truth: &Truth, var: u32) -> bool
    ensures { result ≡ listed truth.now var }
{
    let i = var.saturating_sub(1) as usize;
    if i >= truth.len() {
        return false;
    }
    *truth.at(i)
}

fn holds(clause: &Clause, truth: &Truth) -> bool
    ensures { IsTrue result → IsSatisfied (listed truth.now) clause.now }
{
    for n in 0..clause.len() {
        let l = *clause.at(n);
        if value(truth, l.var) == l.on {
            return true;
        }
    }
    false
}

fn is_model(cnf: &Cnf, truth: &Truth) -> bool
    ensures { IsTrue result → IsModel (listed truth.now) cnf.now.clauses }
{
    for n in 0..cnf.len() {
        if !holds(cnf.clause(n), truth) {
            return false;
        }
    }
    true
}

// The rounds that an assignment tells, where it is a model.
fn decoded(
    rt: &impl Abort,
    alloc: Global,
    inst: &Instance,
    k: u32,
    truth: &Truth,
) -> Result<Option<Rounds>, AllocError>
    requires { k ≤ 400_000 }
{
    expect_three(rt, inst);
    let frame = Frame::of(alloc, inst)?;
    match frame.build(inst, 0, 1, k) {
        Ok(cnf) => {
            if !is_model(&cnf, truth) {
                return Ok(None);
            }
            let rounds = frame.decode(inst, 0, 1, k, truth)?;
            Ok(Some(rounds))
        }
        Err(_) => Ok(None),
    }
}

// The edge of one round of one flip.
fn only_flip(rounds: &Rounds) -> Option<Edge> {
    if rounds.len() != 1 {
        return None;
    }
    let round = rounds.at(0);
    if round.len() != 1 {
        return None;
    }
    Some(*round.at(0))
}

fn truth_of(alloc: Global, values: &[bool]) -> Result<Truth, AllocError> {
    let mut truth = Truth::make(alloc);
    for value in values {
        truth.push(*value)?;
    }
    Ok(truth)
}

// What the values tell of one round between the inputs of the square: None where they are no model, and else its only flip.
fn told(rt: &impl Abort, alloc: Global, values: &[bool]) -> Result<Option<Option<Edge>>, Fail> {
    let inst = polygon(alloc, &SQUARE)?;
    let truth = truth_of(alloc, values)?;
    match decoded(rt, alloc, &inst, 1, &truth)? {
        Some(rounds) => Ok(Some(only_flip(&rounds))),
        None => Ok(None),
    }
}

#[test]
fn a_model_of_the_square_tells_its_flip(rt: HostRuntime) -> Result<(), Fail> {
    let values = [
        true, true, true, true, false, true, true, false, true, true, true, true, true, false,
    ];
    let flip = told(&rt, rt.alloc(), &values)?;
    let none = told(&rt, rt.alloc(), &[true, true, true, true, false, true])?;
    let wanted = Edge::of(0, 2);
    assert!(rt; wanted.is_some() && flip == Some(wanted) && none.is_none());
    Ok(())
}
