// What is solved and written for the octagon whose inputs are the fans at two neighbours. They lie four rounds apart, and the opening needs five.
ghost use Rattle.std.specs.Prelude.{◌≡◌, ◌≤◌};

use crate::looks::{must_have_row, must_look};
use crate::polygons::{OCTAGON, polygon};
use book_cert::*;
use book_core::Book;
use book_solve::*;
use cert_text::Cert;
use lawson_start::StartFault;
use solution_json::Solution;
use std::alloc::Global;
use std::test::Fail;

const NO_TURNS: Order = Order {
    flips: 28,
    turns: 0,
    seed: 1,
    workers: 0,
};

const FOUR_TURNS: Order = Order {
    flips: 28,
    turns: 4,
    seed: 1,
    workers: 0,
};

const FOUR_FLIPS: Order = Order {
    flips: 4,
    turns: 0,
    seed: 1,
    workers: 0,
};

fn solved(alloc: Global, order: Order) -> Result<Book, Fail>
    requires turns { order.turns ≤ 1_000_000 }
    requires workers { order.workers ≡ 0 }
{
    Ok(solve_alone(alloc, polygon(alloc, &OCTAGON)?, order)?)
}

fn written(alloc: Global, order: Order) -> Result<Written, Fail>
    requires turns { order.turns ≤ 1_000_000 }
    requires workers { order.workers ≡ 0 }
{
    Ok(write_alone(alloc, polygon(alloc, &OCTAGON)?, order)?)
}

// How many rounds the solution has for the two inputs together, where there are two.
fn rounds_of(solution: &Solution) -> Option<u128> {
    let lists = &solution.lists;
    if lists.len() == 2 {
        Some(lists.at(0).len() as u128 + lists.at(1).len() as u128)
    } else {
        None
    }
}

// The solution has so many rounds for the two inputs together.
fn must_have_rounds(solution: &Solution, rounds: u128) -> Result<(), Fail> {
    if rounds_of(solution) == Some(rounds) {
        Ok(())
    } else {
        Err(Fail::new("other rounds"))
    }
}

// The version, the inputs and the copies.
fn head_of(cert: &Cert) -> (u32, u32, u32) {
    (cert.version, cert.inputs, cert.copies)
}

// The totals of the opening and the plan, and the bound.
fn numbers_of(cert: &Cert) -> (u128, u128, u64) {
    (cert.opening, cert.total, cert.bound)
}

// The certificate is one of the octagon, with this total and so many lines in its journal.
fn must_certify(cert: &Cert, total: u128, lines: usize) -> Result<(), Fail> {
    if head_of(cert) != (3, 2, 2) {
        Err(Fail::new("another head"))
    } else if numbers_of(cert) != (5, total, 4) {
        Err(Fail::new("other numbers"))
    } else if (cert.journal.len(), cert.rows.len()) != (lines, 1) {
        Err(Fail::new("other lines"))
    } else {
        Ok(())
    }
}

// Numbers of inputs and the budgets of their logs.
const BUDGETS: [(u32, u64); 4] = [(1, 50_000), (28, 50_000), (29, 49_261), (256, 612)];

fn budget_of(inputs: u32) -> u64 {
    log_budget(inputs.clamp(1, 256))
}

#[test]
fn logs_of_many_pairs_may_cost_less(_rt: HostRuntime) -> Result<(), Fail> {
    for (inputs, budget) in BUDGETS {
        if budget_of(inputs) != budget {
            return Err(Fail::new(format_args!("{inputs} inputs")));
        }
    }
    Ok(())
}

fn opened(alloc: Global) -> Result<Book, Fail> {
    Ok(open(alloc, polygon(alloc, &OCTAGON)?, 28)?)
}

#[test]
fn an_opened_book_has_no_entries(rt: HostRuntime) -> Result<(), Fail> {
    let book = opened(rt.alloc())?;
    must_look(&book, (5, 5), (0, 0, 0))
}

// The run of the second input needs more flips than are allowed.
fn must_run_out(told: Option<StartFault>) -> Result<(), Fail> {
    if told == Some(StartFault::FlipBudget(1)) {
        Ok(())
    } else {
        Err(Fail::new(format_args!("{told:?}")))
    }
}

fn fault_of_opening(alloc: Global) -> Result<Option<StartFault>, Fail> {
    Ok(open(alloc, polygon(alloc, &OCTAGON)?, 4).err())
}

fn fault_of_solving(alloc: Global) -> Result<Option<StartFault>, Fail> {
    Ok(solve_alone(alloc, polygon(alloc, &OCTAGON)?, FOUR_FLIPS).err())
}

#[test]
fn runs_past_their_flips_are_named(rt: HostRuntime) -> Result<(), Fail> {
    must_run_out(fault_of_opening(rt.alloc())?)
}

#[test]
fn solving_names_runs_past_their_flips(rt: HostRuntime) -> Result<(), Fail> {
    must_run_out(fault_of_solving(rt.alloc())?)
}

fn must_be_left(book: &Book, totals: (u128, u128), counts: (u64, u64, u64)) -> Result<(), Fail> {
    must_look(book, totals, counts)?;
    must_have_row(book)
}

#[test]
fn without_turns_the_opening_stays_and_is_bounded(rt: HostRuntime) -> Result<(), Fail> {
    let book = solved(rt.alloc(), NO_TURNS)?;
    must_be_left(&book, (5, 5), (2, 0, 4))
}

#[test]
fn turns_lower_the_total(rt: HostRuntime) -> Result<(), Fail> {
    let book = solved(rt.alloc(), FOUR_TURNS)?;
    must_be_left(&book, (5, 4), (3, 1, 4))
}

fn solution_without_turns(alloc: Global) -> Result<Solution, Fail> {
    let book = solved(alloc, NO_TURNS)?;
    Ok(solution_of(alloc, &book)?)
}

fn certificate_without_turns(alloc: Global) -> Result<Cert, Fail> {
    let book = solved(alloc, NO_TURNS)?;
    Ok(certificate_of(alloc, &book)?)
}

#[test]
fn a_solution_has_the_rounds_of_its_book(rt: HostRuntime) -> Result<(), Fail> {
    let solution = solution_without_turns(rt.alloc())?;
    must_have_rounds(&solution, 5)
}

#[test]
fn a_certificate_has_the_moves_and_rows_of_its_book(rt: HostRuntime) -> Result<(), Fail> {
    let cert = certificate_without_turns(rt.alloc())?;
    must_certify(&cert, 5, 0)
}

fn must_be_written(written: &Written) -> Result<(), Fail> {
    must_have_rounds(&written.solution, 4)?;
    must_certify(&written.certificate, 4, 1)
}

#[test]
fn a_better_plan_is_written_with_the_line_that_made_it(rt: HostRuntime) -> Result<(), Fail> {
    let written = written(rt.alloc(), FOUR_TURNS)?;
    must_be_written(&written)
}
