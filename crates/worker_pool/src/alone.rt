// One turn on a book in the hands of one thread.
ghost use Rattle.std.specs.Prelude.{◌≡◌, ◌<◌, ◌+◌, length, IfOk};
ghost use mathlib.Core.List.{IsPrefix};
ghost use Rattle.flip_cnf.specs.HeldFrames.{IsHeldFrame};
ghost use Rattle.plan_law.specs.Solving.{turns_of};
ghost use Rattle.book_core.specs.HeldBooks.{ground_of, now_of, front_of};
ghost use Rattle.worker_pool.specs.Jobs.{AreLimits, order_of};
ghost use Rattle.worker_pool.specs.Works.{table_at, IsWork};
ghost use Rattle.worker_pool.specs.Runs.{IsTurnAlone};

use crate::turn::{kind_of, offer_to, outcome_of};
use crate::work::{Work, work_on};
use crate::{Limits, Outcome};
use book_core::Book;
use flip_cnf::Frame;
use std::alloc::{AllocError, Global};

// What the turn `u` comes to on the book as it is.
fn work_in(
    alloc: Global,
    book: &Book,
    frame: &Frame,
    limits: &Limits,
    u: u64,
) -> Result<Work, AllocError>
    requires limits { AreLimits limits.now }
    requires frame { IsHeldFrame book.now.problem.points frame.now }
    requires turn { u < turns_of (order_of limits.now) book.now.problem.inputs }
    ensures { IfOk result (IsWork limits.now frame.now u book.now.problem (now_of book.now).plan (table_at (now_of book.now)) (front_of book.now)) }
{
    work_on(
        alloc,
        book.plan(),
        book.weights(),
        book.front(),
        frame,
        limits,
        u,
    )
}

/// One turn on a book: works on it as it is, and offers what that comes to.
pub(crate) fn turn_alone(
    alloc: Global,
    book: &mut Book,
    frame: &Frame,
    limits: &Limits,
    u: u64,
) -> Outcome
    requires limits { AreLimits limits.now }
    requires frame { IsHeldFrame book.old.problem.points frame.now }
    requires turn { u < turns_of (order_of limits.now) book.old.problem.inputs }
    ensures { IsTurnAlone limits.now frame.now u book.old book.new result }
{
    let base = book.front();
    match work_in(alloc, book, frame, limits, u) {
        Ok(Work::Offers(entry)) => {
            let kind = kind_of(&entry);
            let (answer, limit) = offer_to(book, base, entry);
            let outcome = outcome_of(kind, answer, limit);
            return outcome;
        }
        Ok(Work::Ends(outcome)) => return outcome,
        Err(_) => return Outcome::NoMemory,
    }
}
