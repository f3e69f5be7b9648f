// All turns of a run on one thread, in order.
ghost use Rattle.std.specs.Prelude.{◌≡◌, length, [], IfOk, IfErr};
ghost use Rattle.flip_cnf.specs.HeldFrames.{IsHeldFrame};
ghost use Rattle.plan_law.specs.Solving.{turns_of};
ghost use Rattle.book_core.specs.HeldBooks.{ground_of};
ghost use Rattle.worker_pool.specs.Jobs.{AreLimits, order_of};
ghost use Rattle.worker_pool.specs.Runs.{AreTurnsInOrder, HaveRows};

use crate::alone::turn_alone;
use crate::{Limits, Outcome, Outcomes, turn_count};
use book_core::Book;
use flip_cnf::Frame;
use std::alloc::{AllocError, Global};

/// There was no memory before the first turn. The book is the one handed in.
#[derive(Drop)]
pub struct NoPool {
    pub book: Book,
}

// So many outcomes, one for each turn to come.
fn outcomes_for(alloc: Global, turns: u64) -> Result<Outcomes, AllocError>
    ensures { IfOk result (λ outcomes. length outcomes ≡ turns) }
{
    let mut outcomes = Outcomes::make(alloc);
    for _ in 0..turns {
        outcomes.push(Outcome::NoMemory)?;
    }
    Ok(outcomes)
}

// The number of turns of a run with a book.
fn turns_on(book: &Book, limits: &Limits) -> u64
    requires { AreLimits limits.now }
    ensures { result ≡ turns_of (order_of limits.now) book.now.problem.inputs }
{
    let inst = book.plan().inst();
    let _ = inst.count();
    turn_count(limits, inst.inputs())
}

// Takes each turn on what the earlier ones left.
fn take_turns(
    alloc: Global,
    book: &mut Book,
    frame: &Frame,
    limits: &Limits,
    outcomes: &mut Outcomes,
)
    requires limits { AreLimits limits.now }
    requires frame { IsHeldFrame book.old.problem.points frame.now }
    requires book { book.old.journal ≡ [] }
    requires count { length outcomes.old ≡ turns_of (order_of limits.now) book.old.problem.inputs }
    ensures count { length outcomes.new ≡ turns_of (order_of limits.now) book.old.problem.inputs }
    ensures ground { ground_of book.new ≡ ground_of book.old }
    ensures turns { AreTurnsInOrder limits.now frame.now (ground_of book.old) book.new.journal outcomes.new }
{
    for u in 0..outcomes.len() {
        let outcome = turn_alone(alloc, book, frame, limits, u as u64);
        *outcomes.at_mut(u) = outcome;
    }
}

/// Takes all turns in order on one thread, each on what the earlier ones left, and answers the book with the outcome of each turn. The outcome at place `u` is that of turn `u`.
pub fn run_alone(
    alloc: Global,
    book: Book,
    frame: &Frame,
    limits: &Limits,
) -> Result<(Book, Outcomes), NoPool>
    requires limits { AreLimits limits.now }
    requires frame { IsHeldFrame book.problem.points frame.now }
    requires book { book.journal ≡ [] }
    ensures ground { IfOk result (λ r. ground_of r.0 ≡ ground_of book) }
    ensures count { IfOk result (λ r. length r.1 ≡ turns_of (order_of limits.now) book.problem.inputs) }
    ensures turns { IfOk result (λ r. AreTurnsInOrder limits.now frame.now (ground_of book) r.0.journal r.1) }
    ensures rows { IfOk result (λ r. HaveRows limits.now (ground_of book) r.0.journal r.1) }
    ensures err { IfErr result (λ none. none.book ≡ book) }
{
    let turns = turns_on(&book, limits);
    match outcomes_for(alloc, turns) {
        Ok(made) => {
            let mut book = book;
            let mut outcomes = made;
            take_turns(alloc, &mut book, frame, limits, &mut outcomes);
            Ok((book, outcomes))
        }
        Err(_) => Err(NoPool { book }),
    }
}
