// From an instance to a finished book.
ghost use Rattle.std.specs.Prelude.{◌≡◌, ◌≢◌, ◌<◌, ◌≤◌, ℕ, [], Some, length, slice_get, IfOk, IfErr};
ghost use Rattle.std.specs.Bool.{OnFalse};
ghost use Rattle.flip_cnf.specs.HeldFrames.{IsHeldFrame};
ghost use Rattle.lawson_start.specs.Starts.{IsStartFault};
ghost use Rattle.plan_law.specs.Solving.{turns_of};
ghost use Rattle.worker_pool.specs.Jobs.{AreLimits};
ghost use Rattle.book_solve.specs.Crews.{IsRun};
ghost use Rattle.book_solve.specs.Solved.{IsOpeningPlan, IsSolvedBook, limits_of, turns_for};

use crate::limits::limits_of;
use crate::{Order, open};
use book_core::Book;
use flip_cnf::Frame;
use lawson_start::StartFault;
use std::alloc::Global;
use std::sync::{Arc, Wait};
use std::thread::Threads;
use tri_check::Instance;
use worker_crew::{Gate, run_turns};
use worker_pool::{Limits, NoPool, Outcome, Outcomes, finish, run_alone};

// What the turns of a run work with.
struct Begun {
    book: Book,
    frame: Frame,
    limits: Limits,
}

// The opened book of an instance, its frame and the limits of its turns.
fn begin(alloc: Global, inst: Arc<Instance>, order: Order) -> Result<Begun, StartFault>
    requires { order.turns ≤ 1_000_000 }
    ensures problem { IfOk result (λ r. r.book.problem ≡ inst.value) }
    ensures opens { IfOk result (λ r. IsOpeningPlan inst.value order.flips r.book.opening) }
    ensures empty { IfOk result (λ r. r.book.journal ≡ []) }
    ensures frame { IfOk result (λ r. IsHeldFrame inst.value.points r.frame) }
    ensures limits { IfOk result (λ r. r.limits ≡ limits_of inst.value order) }
    ensures within { IfOk result (λ r. AreLimits r.limits) }
    ensures err { IfErr result (IsStartFault inst.value.points inst.value.inputs order.flips) }
{
    let limits = limits_of(&inst, order);
    let book = open(alloc, inst, order.flips)?;
    let frame = Frame::of(alloc, book.plan().inst())?;
    Ok(Begun {
        book,
        frame,
        limits,
    })
}

// Whether a turn wanted memory.
fn some_wanted_memory(outcomes: &Outcomes) -> bool
    ensures { OnFalse result ((u : ℕ) → slice_get outcomes.now u ≢ Some Outcome.NoMemory) }
{
    for outcome in outcomes.as_slice() {
        if *outcome == Outcome::NoMemory {
            return true;
        }
    }
    false
}

// Finishes the book of a run in which no turn wanted memory.
fn finished(
    alloc: Global,
    inst: &Arc<Instance>,
    order: Order,
    run: Result<(Book, Outcomes), NoPool>,
) -> Result<Book, StartFault>
    requires run { IfOk run (λ r. IsRun inst.now.value order r.0 r.1) }
    ensures solved { IfOk result (IsSolvedBook inst.now.value order) }
    ensures err { IfErr result (IsStartFault inst.now.value.points inst.now.value.inputs order.flips) }
{
    let _ = inst.count();
    let Ok((mut book, outcomes)) = run else {
        return Err(StartFault::OutOfMemory);
    };
    if some_wanted_memory(&outcomes) {
        return Err(StartFault::OutOfMemory);
    }
    finish(alloc, &mut book, outcomes.len() as u64)?;
    Ok(book)
}

/// The book that an order asks for where no worker is asked for: the opening of the instance, after all turns of improvers and provers, in order, and after its finish. Where a turn wants memory there is none.
///
/// The time is that of the opening, of the turns and of settling. With few points the rows are most of it: for each two inputs some formulas are built and searched.
pub fn solve_alone(alloc: Global, inst: Arc<Instance>, order: Order) -> Result<Book, StartFault>
    requires turns { order.turns ≤ 1_000_000 }
    requires workers { order.workers ≡ 0 }
    ensures solved { IfOk result (IsSolvedBook inst.value order) }
    ensures err { IfErr result (IsStartFault inst.value.points inst.value.inputs order.flips) }
{
    let Begun {
        book,
        frame,
        limits,
    } = begin(alloc, inst.clone()?, order)?;
    let run = run_alone(alloc, book, &frame, &limits);
    finished(alloc, &inst, order, run)
}

/// The same by workers side by side, who share the turns. The opening and the finish are the caller's. It waits for the workers. The gate is called before each turn.
pub fn solve_together<R: Threads + Wait + Sync, G: Gate + Sync>(
    rt: &R,
    alloc: Global,
    inst: Arc<Instance>,
    order: Order,
    gate: &G,
) -> Result<Book, StartFault>
    requires turns { order.turns ≤ 1_000_000 }
    requires workers { (0 < order.workers) × (order.workers ≤ 16) }
    ensures solved { IfOk result (IsSolvedBook inst.value order) }
    ensures err { IfErr result (IsStartFault inst.value.points inst.value.inputs order.flips) }
{
    let Begun {
        book,
        frame,
        limits,
    } = begin(alloc, inst.clone()?, order)?;
    let run = run_turns(rt, alloc, book, &frame, &limits, order.workers, gate);
    finished(alloc, &inst, order, run)
}
