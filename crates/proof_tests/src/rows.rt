// Rows of pairs of fans of small polygons, with each evidence and each end.
ghost use Rattle.std.specs.Prelude.{◌≡◌, ◌<◌, ◌≤◌, length};

use crate::polygons::{HEXAGON, PENTAGON, SQUARE, expect_three, parabola, polygon};
use cross_bound::Side;
use edge_table::Edge;
use flip_cnf::Frame;
use pair_rows::*;
use rup_check::check;
use sat_search::{Answer, solve};
use std::alloc::{AllocError, Global};
use std::process::Abort;
use std::test::Fail;
use tri_check::Instance;

// The row of input 0 and another one.
fn row(
    rt: &impl Abort,
    alloc: Global,
    inst: &Instance,
    j: u32,
    budget: u64,
) -> Result<Row, AllocError>
    requires first { 0 < j }
    requires second { j < 3 }
    requires budget { budget ≤ 1_000_000 }
{
    expect_three(rt, inst);
    let frame = Frame::of(alloc, inst)?;
    prove_pair(alloc, inst, &frame, 0, j, budget)
}

// Whether the row is of input 0 and j, and its lower bound comes from this many crossings of 0-2.
fn crosses(rt: &impl Abort, row: &Row, j: u32, lower: u32, members: u32) -> bool {
    let diagonal = Edge::of(0, 2).expect(rt, "two points");
    let shown = match &row.evidence {
        Evidence::Crosses { from, edge, count } => {
            *from == Side::First && *edge == diagonal && *count == members
        }
        _ => false,
    };
    shown && row.i == 0 && row.j == j && row.lower == lower
}

// The number of rounds of a refuted formula, and whether its log has lines.
fn refuted(row: &Row) -> Option<(u32, bool)> {
    match &row.evidence {
        Evidence::Refuted { k, log } => Some((*k, !log.is_empty())),
        _ => None,
    }
}

fn met(row: &Row) -> Option<usize> {
    match &row.end {
        End::Met(rounds) => Some(rounds.len()),
        _ => None,
    }
}

fn spent(row: &Row) -> Option<(u32, usize)> {
    match &row.end {
        End::Spent { k, log } => Some((*k, log.len())),
        _ => None,
    }
}

// Whether the pruned formula of so many rounds between the first two inputs is refuted, by a log that the checker accepts. It isn't where it has a model, and there is no answer where the budget is spent.
fn is_refuted(
    rt: &impl Abort,
    alloc: Global,
    inst: &Instance,
    k: u32,
) -> Result<Option<bool>, AllocError>
    requires { k ≤ 9 }
{
    expect_three(rt, inst);
    let frame = Frame::of(alloc, inst)?;
    let cnf = match frame.build2(inst, 0, 1, k) {
        Ok(cnf) => cnf,
        Err(_) => return Ok(None),
    };
    match solve(alloc, &cnf, 50_000)? {
        Answer::Sat(_) => Ok(Some(false)),
        Answer::Refuted(log) => Ok(Some(check(alloc, &cnf, &log).is_ok())),
        Answer::Spent(_) => Ok(None),
    }
}

// Whether it is refuted is as wanted.
fn must_refute(
    rt: &impl Abort,
    alloc: Global,
    corners: &[(i64, i64)],
    k: u32,
    wanted: bool,
) -> Result<(), Fail>
    requires { k ≤ 9 }
{
    let inst = polygon(alloc, corners)?;
    let found = is_refuted(rt, alloc, &inst, k)?;
    if found == Some(wanted) {
        Ok(())
    } else {
        Err(Fail::new(format_args!("{found:?} for {k} rounds")))
    }
}

// The row of the first input of a polygon and another one.
fn row_of(
    rt: &impl Abort,
    alloc: Global,
    corners: &[(i64, i64)],
    j: u32,
    budget: u64,
) -> Result<Row, Fail>
    requires first { 0 < j }
    requires second { j < 3 }
    requires budget { budget ≤ 1_000_000 }
{
    let inst = polygon(alloc, corners)?;
    Ok(row(rt, alloc, &inst, j, budget)?)
}

// The row of the first two inputs of so many points of a parabola.
fn row_of_many(rt: &impl Abort, alloc: Global, count: u32, budget: u64) -> Result<Row, Fail>
    requires budget { budget ≤ 1_000_000 }
{
    let inst = parabola(alloc, count)?;
    Ok(row(rt, alloc, &inst, 1, budget)?)
}

#[test]
fn formulas_of_too_few_rounds_are_refuted(rt: HostRuntime) -> Result<(), Fail> {
    must_refute(&rt, rt.alloc(), &SQUARE, 0, true)?;
    must_refute(&rt, rt.alloc(), &SQUARE, 1, false)?;
    must_refute(&rt, rt.alloc(), &PENTAGON, 1, true)?;
    must_refute(&rt, rt.alloc(), &PENTAGON, 2, false)
}

// Whether the row is of input 0 and input 2, which are no rounds apart, with no evidence.
fn is_of_equals(row: &Row) -> bool {
    let is_bare = matches!(row.evidence, Evidence::Nothing);
    is_bare && (row.i, row.j, row.lower, met(row)) == (0, 2, 0, Some(0))
}

#[test]
fn equal_inputs_are_no_rounds_apart(rt: HostRuntime) -> Result<(), Fail> {
    let row = row_of(&rt, rt.alloc(), &SQUARE, 2, 50_000)?;
    assert!(rt; is_of_equals(&row));
    Ok(())
}

#[test]
fn the_diagonals_of_a_square_are_one_round_apart(rt: HostRuntime) -> Result<(), Fail> {
    let row = row_of(&rt, rt.alloc(), &SQUARE, 1, 50_000)?;
    assert!(rt; crosses(&rt, &row, 1, 1, 1) && met(&row) == Some(1));
    Ok(())
}

#[test]
fn the_fans_of_a_pentagon_are_two_rounds_apart(rt: HostRuntime) -> Result<(), Fail> {
    let row = row_of(&rt, rt.alloc(), &PENTAGON, 1, 50_000)?;
    assert!(rt; crosses(&rt, &row, 1, 2, 2) && met(&row) == Some(2));
    Ok(())
}

// Whether the row has the lower bound 3, by a log with lines that refutes two rounds, and three rounds.
fn is_of_three(row: &Row) -> bool {
    (row.lower, refuted(row), met(row)) == (3, Some((2, true)), Some(3))
}

#[test]
fn the_fans_of_a_hexagon_are_three_rounds_apart(rt: HostRuntime) -> Result<(), Fail> {
    let row = row_of(&rt, rt.alloc(), &HEXAGON, 1, 50_000)?;
    let copy = row.copy()?;
    assert!(rt; is_of_three(&row) && is_of_three(&copy));
    Ok(())
}

#[test]
fn a_small_budget_is_spent_on_a_hexagon(rt: HostRuntime) -> Result<(), Fail> {
    let row = row_of(&rt, rt.alloc(), &HEXAGON, 1, 1)?;
    assert!(rt; crosses(&rt, &row, 1, 2, 3) && spent(&row) == Some((2, 1)));
    Ok(())
}

#[test]
fn a_small_budget_is_spent_on_twenty_points(rt: HostRuntime) -> Result<(), Fail> {
    let row = row_of_many(&rt, rt.alloc(), 20, 1)?;
    assert!(rt; crosses(&rt, &row, 1, 5, 17) && spent(&row) == Some((5, 1)));
    Ok(())
}

#[test]
fn a_small_budget_is_spent_on_sixty_four_points(rt: HostRuntime) -> Result<(), Fail> {
    let row = row_of_many(&rt, rt.alloc(), 64, 1)?;
    assert!(rt; crosses(&rt, &row, 1, 6, 61) && spent(&row) == Some((6, 1)));
    Ok(())
}

#[test]
fn sixty_five_points_have_no_formula(rt: HostRuntime) -> Result<(), Fail> {
    let row = row_of_many(&rt, rt.alloc(), 65, 50_000)?;
    assert!(rt; crosses(&rt, &row, 1, 6, 62) && matches!(row.end, End::ManyPoints(65)));
    Ok(())
}
