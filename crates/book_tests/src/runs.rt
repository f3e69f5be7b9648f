// The turns and the end of small runs on one thread.
ghost use Rattle.std.specs.Prelude.{◌≡◌, [], IfOk};

use crate::looks::{must_count, must_look};
use crate::polygons::square;
use book_core::Book;
use book_solve::open;
use flip_cnf::Frame;
use std::alloc::{AllocError, Global};
use std::test::Fail;
use worker_pool::*;

const LIMITS: Limits = Limits {
    seed: 1,
    turns: 2,
    budget: 1000,
};

// The opened book of the square with these weights.
fn opened(alloc: Global, weights: [i64; 2]) -> Result<Book, Fail>
    ensures { IfOk result (λ b. b.journal ≡ []) }
{
    Ok(open(alloc, square(alloc, weights)?, 1000)?)
}

fn turns_of(alloc: Global, book: Book) -> Result<(Book, Outcomes), Fail>
    requires { book.journal ≡ [] }
{
    let frame = Frame::of(alloc, book.plan().inst())?;
    match run_alone(alloc, book, &frame, &LIMITS) {
        Ok(run) => Ok(run),
        Err(_) => Err(Fail::from(AllocError)),
    }
}

// What all turns leave of the square with equal weights, and their outcomes.
fn run(alloc: Global) -> Result<(Book, Outcomes), Fail> {
    turns_of(alloc, opened(alloc, [1, 1])?)
}

const OUTCOMES: [Outcome; 3] = [
    Outcome::NotBetter { base: 0 },
    Outcome::Kept { place: 0 },
    Outcome::NotBetter { base: 0 },
];

fn must_come_to(told: &[Outcome], wanted: &[Outcome]) -> Result<(), Fail> {
    if told == wanted {
        Ok(())
    } else {
        Err(Fail::new("other outcomes"))
    }
}

fn must_keep_its_row(book: &Book, outcomes: &Outcomes) -> Result<(), Fail> {
    must_come_to(outcomes.as_slice(), &OUTCOMES)?;
    must_count(book, 1, 0, 0)
}

#[test]
fn the_turns_of_a_square_keep_its_row(rt: HostRuntime) -> Result<(), Fail> {
    let (book, outcomes) = run(rt.alloc())?;
    must_keep_its_row(&book, &outcomes)
}

fn run_to_the_end(alloc: Global) -> Result<Book, Fail> {
    let (mut book, _) = run(alloc)?;
    finish(alloc, &mut book, 3)?;
    Ok(book)
}

#[test]
fn a_finished_square_has_the_bound_of_its_row(rt: HostRuntime) -> Result<(), Fail> {
    let book = run_to_the_end(rt.alloc())?;
    must_look(&book, (1, 1), (2, 0, 1))
}

fn must_settle(alloc: Global, book: &mut Book) -> Result<(), Fail> {
    must_look(book, (3, 3), (0, 0, 0))?;
    finish(alloc, book, 0)?;
    must_look(book, (3, 1), (1, 1, 0))
}

#[test]
fn a_heavy_square_is_settled_by_one_move(rt: HostRuntime) -> Result<(), Fail> {
    let mut book = opened(rt.alloc(), [1, 3])?;
    must_settle(rt.alloc(), &mut book)
}
