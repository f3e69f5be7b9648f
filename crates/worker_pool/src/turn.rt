// One turn at a book behind a lock: catch up, work, offer.
ghost use Rattle.std.specs.Prelude.{◌≡◌, ◌+◌, ◌<◌, length, sum, IfOk, IfErr, OnOk, OnErr};
ghost use Rattle.std.specs.Bool.{OnTrue};
ghost use mathlib.Core.List.{IsPrefix};
ghost use Rattle.vcell.specs.Passes.{IsPassOf};
ghost use Rattle.flip_cnf.specs.HeldFrames.{IsHeldFrame};
ghost use Rattle.plan_law.specs.Books.{bound};
ghost use Rattle.plan_law.specs.Solving.{turns_of};
ghost use Rattle.book_core.specs.HeldBooks.{IsOffer, Accepts, Refuses, with_line, now_of};
ghost use Rattle.worker_pool.specs.Jobs.{AreLimits, MayBeInputs, order_of};
ghost use Rattle.worker_pool.specs.Works.{IsWork};
ghost use Rattle.worker_pool.specs.Turns.{IsReplicaAt, IsLegalBook, IsPublished, MayBeRefused, IsTurn, taken, kind_of, outcome_for, now_at};

use crate::work::{Work, work_on};
use crate::{Limits, Outcome};
use book_core::{Accepted, Book, Entry, Refusal, Replica};
use flip_cnf::Frame;
use std::alloc::{AllocError, Global};
use std::sync::Wait;
use vcell::{Pass, VCell};

// Lets the replica catch up in one holding of the book, and answers whether there was memory for it.
fn catch_up<R: Wait>(
    rt: &R,
    cell: &VCell<Book>,
    pass: Pass<Book>,
    replica: &mut Replica,
) -> (Pass<Book>, bool)
    requires own { IsPassOf cell.now pass }
    requires replica { IsReplicaAt cell.now.ground pass.seen replica.old }
    ensures own { IsPassOf cell.now result.0 }
    ensures seen { IsPrefix pass.seen result.0.seen }
    ensures made { result.0.made ≡ pass.made }
    ensures replica { IsReplicaAt cell.now.ground result.0.seen replica.new }
    ensures whole { OnTrue result.1 (replica.new.state.seen ≡ length result.0.seen) }
{
    let mut held = cell.enter(rt, pass);
    let caught = replica.catch(held.value()).is_ok();
    (held.leave(), caught)
}

// Offers an entry in one holding of the book, and answers the bound then.
fn publish<R: Wait>(
    rt: &R,
    cell: &VCell<Book>,
    pass: Pass<Book>,
    base: u64,
    entry: Entry,
) -> (Pass<Book>, Result<Accepted, Refusal>, u64)
    requires own { IsPassOf cell.now pass }
    requires offer { IsOffer cell.now.ground.problem entry }
    ensures own { IsPassOf cell.now result.0 }
    ensures seen { IsPrefix pass.seen result.0.seen }
    ensures published { IsPublished cell.now.ground pass.seen base entry result.1 result.2 result.0.seen }
    ensures made { result.0.made ≡ pass.made + taken result.1 }
{
    let mut held = cell.enter(rt, pass);
    let (answer, limit) = offer_to(held.value(), base, entry);
    (held.leave(), answer, limit)
}

// Offers an entry, and answers the bound then.
pub(crate) fn offer_to(book: &mut Book, base: u64, entry: Entry) -> (Result<Accepted, Refusal>, u64)
    requires { IsOffer book.old.problem entry }
    ensures legal { IsLegalBook book.old }
    ensures ok { IfOk result.0 (λ a. Accepts book.old base entry a.place a.saved) }
    ensures grown { OnOk result.0 (book.new ≡ with_line book.old entry) }
    ensures err { IfErr result.0 (Refuses book.old base entry) }
    ensures kept { OnErr result.0 (book.new ≡ book.old) }
    ensures limit { result.1 ≡ bound (now_of book.new) }
{
    let _ = book.plan().inst().count();
    let _ = book.bound();
    let answer = book.offer(base, entry);
    let limit = book.bound();
    (answer, limit)
}

// What is offered.
#[derive(Clone, Copy, Debug, PartialEq, Eq)]
pub(crate) enum Kind {
    Step,
    Bound,
    Assigned,
}

pub(crate) fn kind_of(entry: &Entry) -> Kind
    ensures { result ≡ kind_of entry.now }
{
    match entry {
        Entry::Move { .. } | Entry::Swap { .. } => Kind::Step,
        Entry::Row { .. } => Kind::Bound,
        Entry::Pack { .. } => Kind::Assigned,
    }
}

// The outcome of a turn whose offer was answered. A book finds nothing else wrong with what a turn offers.
pub(crate) fn outcome_of(kind: Kind, answer: Result<Accepted, Refusal>, limit: u64) -> Outcome
    requires { IfErr answer (MayBeRefused kind) }
    ensures { result ≡ outcome_for kind answer limit }
{
    match answer {
        Ok(Accepted { place, saved }) => match kind {
            Kind::Step => Outcome::Published { place, saved },
            Kind::Bound => Outcome::Kept { place },
            Kind::Assigned => Outcome::Packed {
                place,
                bound: limit,
            },
        },
        Err(Refusal::Stale { base, front }) => Outcome::Stale { base, front },
        Err(Refusal::Taken(i, j)) => Outcome::Taken(i, j),
        Err(Refusal::NoRise { held, given }) => Outcome::NoRise { held, given },
        Err(Refusal::OutOfMemory) => Outcome::NoMemory,
        Err(Refusal::BadMove(_) | Refusal::BadSwap(_) | Refusal::NotBetter { .. }) =>
            unreachable!(),
    }
}

// What the turn `u` comes to on a replica.
fn work_for(
    alloc: Global,
    replica: &Replica,
    frame: &Frame,
    limits: &Limits,
    u: u64,
) -> Result<Work, AllocError>
    requires limits { AreLimits limits.now }
    requires frame { IsHeldFrame replica.now.problem.points frame.now }
    requires table { length replica.now.state.table ≡ sum replica.now.state.plan.weights }
    requires turn { u < turns_of (order_of limits.now) replica.now.problem.inputs }
    ensures { IfOk result (IsWork limits.now frame.now u replica.now.problem replica.now.state.plan replica.now.state.table replica.now.state.front) }
{
    work_on(
        alloc,
        replica.plan(),
        replica.weights(),
        replica.front(),
        frame,
        limits,
        u,
    )
}

/// One turn: catches up, works, and offers what it comes to.
pub fn take_turn<R: Wait>(
    rt: &R,
    alloc: Global,
    cell: &VCell<Book>,
    pass: Pass<Book>,
    replica: &mut Replica,
    frame: &Frame,
    limits: &Limits,
    u: u64,
) -> (Pass<Book>, Outcome)
    requires own { IsPassOf cell.now pass }
    requires replica { IsReplicaAt cell.now.ground pass.seen replica.old }
    requires frame { IsHeldFrame cell.now.ground.problem.points frame.now }
    requires limits { AreLimits limits.now }
    requires turn { u < turns_of (order_of limits.now) cell.now.ground.problem.inputs }
    ensures { IsTurn limits.now frame.now u cell.now pass result.0 replica.new result.1 }
{
    let (pass, caught) = catch_up(rt, cell, pass, replica);
    if !caught {
        return (pass, Outcome::NoMemory);
    }
    let base = replica.front();
    match work_for(alloc, replica, frame, limits, u) {
        Ok(Work::Offers(entry)) => {
            let kind = kind_of(&entry);
            let (pass, answer, limit) = publish(rt, cell, pass, base, entry);
            let outcome = outcome_of(kind, answer, limit);
            return (pass, outcome);
        }
        Ok(Work::Ends(outcome)) => return (pass, outcome),
        Err(_) => return (pass, Outcome::NoMemory),
    }
}
