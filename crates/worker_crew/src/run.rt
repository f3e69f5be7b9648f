// All turns of a run, by workers side by side.
ghost use Rattle.std.specs.Prelude.{◌≡◌, ◌<◌, ◌≤◌, [], length, All, IfOk, IfErr};
ghost use Rattle.std.proofs.Math.ListN.{replicate};
ghost use Rattle.flip_cnf.specs.HeldFrames.{IsHeldFrame};
ghost use Rattle.plan_law.specs.Solving.{turns_of};
ghost use Rattle.book_core.specs.HeldBooks.{ground_of};
ghost use Rattle.worker_pool.specs.declared.outcome.Outcome.TheVariants as outcome;
ghost use Rattle.worker_pool.specs.Jobs.{AreLimits, order_of};
ghost use Rattle.worker_pool.specs.Runs.{HaveRows};
ghost use Rattle.worker_crew.specs.Workers.{filled, all_taken};
ghost use Rattle.worker_crew.specs.Crews.{AreTurnsOfWorkers};

use crate::Gate;
use crate::crew::crew;
use crate::taken::{Parts, TakenList};
use book_core::Book;
use claims::Claims;
use flip_cnf::Frame;
use std::alloc::{AllocError, Global};
use std::sync::Wait;
use std::thread::Threads;
use vcell::{NoCell, VCell};
use worker_pool::{Limits, NoPool, Outcome, Outcomes, turn_count};

// Want of memory for each turn, until a worker takes it.
fn untaken(alloc: Global, turns: u64) -> Result<Outcomes, AllocError>
    ensures { IfOk result (λ outcomes. outcomes ≡ replicate turns outcome.NoMemory) }
{
    let mut outcomes = Outcomes::make(alloc);
    for _ in 0..turns {
        outcomes.push(Outcome::NoMemory)?;
    }
    Ok(outcomes)
}

// Puts the outcomes of one worker's turns at the places of the turns.
fn put_part(outcomes: &mut Outcomes, part: &TakenList)
    requires { All (λ t. t.turn < length outcomes.old) part.now }
    ensures { outcomes.new ≡ filled outcomes.old part.now }
{
    for taken in part.as_slice() {
        *outcomes.at_mut(taken.turn as usize) = taken.outcome;
    }
}

// Those of all workers.
fn put_parts(outcomes: &mut Outcomes, parts: &Parts)
    requires { All (λ t. t.turn < length outcomes.old) (all_taken parts.now.items) }
    ensures { outcomes.new ≡ filled outcomes.old (all_taken parts.now.items) }
{
    for place in 0..parts.len() {
        put_part(outcomes, parts.at(place));
    }
}

// The number of turns of a run with a book.
fn turns_on(book: &Book, limits: &Limits) -> u64
    requires { AreLimits limits.now }
    ensures turns { result ≡ turns_of (order_of limits.now) book.now.problem.inputs }
    ensures few { result ≤ 2_000_000 }
{
    let inst = book.plan().inst();
    let _ = inst.count();
    turn_count(limits, inst.inputs())
}

/// Takes all turns by so many workers side by side, each in a thread of its own where one can be made, and answers the book with the outcome of each turn. The outcome at place `u` is that of turn `u`. A worker works on what it has seen of the book while others change it, so moves and swaps that it offers may come too late; it enters the book only to see what is new and to offer.
///
/// The gate is called before each turn that is taken. A worker that finds no memory for its own list leaves the turns that are left to the others. A turn that none could take wanted memory.
pub fn run_turns<R: Threads + Wait + Sync, G: Gate + Sync>(
    rt: &R,
    alloc: Global,
    book: Book,
    frame: &Frame,
    limits: &Limits,
    workers: u32,
    gate: &G,
) -> Result<(Book, Outcomes), NoPool>
    requires limits { AreLimits limits.now }
    requires workers { (0 < workers) × (workers ≤ 16) }
    requires frame { IsHeldFrame book.problem.points frame.now }
    requires book { book.journal ≡ [] }
    ensures ground { IfOk result (λ r. ground_of r.0 ≡ ground_of book) }
    ensures count { IfOk result (λ r. length r.1 ≡ turns_of (order_of limits.now) book.problem.inputs) }
    ensures turns { IfOk result (λ r. AreTurnsOfWorkers workers limits.now frame.now (ground_of book) r.0.journal r.1) }
    ensures rows { IfOk result (λ r. HaveRows limits.now (ground_of book) r.0.journal r.1) }
    ensures err { IfErr result (λ none. none.book ≡ book) }
{
    let turns = turns_on(&book, limits);
    let Ok(blank) = untaken(alloc, turns) else {
        return Err(NoPool { book });
    };
    let Ok(parts) = Parts::with_room(alloc, workers as usize) else {
        return Err(NoPool { book });
    };
    let Ok((claims, seats)) = Claims::make(alloc, turns, workers) else {
        return Err(NoPool { book });
    };
    match VCell::make(alloc, book, workers) {
        Ok((cell, passes)) => {
            let (passes, seats, parts) = crew(
                rt, alloc, &cell, &claims, frame, limits, gate, passes, seats, parts,
            );
            claims.close(seats);
            let book = cell.close(passes);
            let _ = book.bound();
            let mut outcomes = blank;
            put_parts(&mut outcomes, &parts);
            Ok((book, outcomes))
        }
        Err(NoCell { value }) => Err(NoPool { book: value }),
    }
}
