// A turn at a book behind a lock.
ghost use Rattle.std.specs.Prelude.{◌<◌, IfOk, IsTrue};
ghost use mathlib.Core.List.{IsPrefix};
ghost use Rattle.vcell.specs.Passes.{IsPassOf};
ghost use Rattle.flip_cnf.specs.HeldFrames.{IsHeldFrame};
ghost use Rattle.plan_law.specs.Solving.{turns_of};
ghost use Rattle.worker_pool.specs.Jobs.{AreLimits, order_of};
ghost use Rattle.worker_pool.specs.Turns.{IsReplicaAt};

use crate::octagon::{Numbers, OCTAGON, numbers_of, opened};
use crate::trial::{Trial, unless_broken};
use book_core::{Book, Replica};
use flip_cnf::Frame;
use std::alloc::{AllocError, Global};
use std::sync::Wait;
use vcell::{Pass, VCell};
use worker_pool::{Limits, Outcome, take_turn, turn_count};

const LIMITS: Limits = Limits {
    seed: 1,
    turns: 4,
    budget: 50_000,
};

// What a worker keeps of the book, made in one holding of it.
fn replica_of<R: Wait>(
    rt: &R,
    alloc: Global,
    cell: &VCell<Book>,
    pass: Pass<Book>,
) -> (Pass<Book>, Result<Replica, AllocError>)
    requires { IsPassOf cell.now pass }
    ensures own { IsPassOf cell.now result.0 }
    ensures replica { IfOk result.1 (IsReplicaAt cell.now.ground result.0.seen) }
{
    let mut held = cell.enter(rt, pass);
    let replica = Replica::of(alloc, held.value());
    (held.leave(), replica)
}

// The numbers of the book, read in one holding of it.
fn look<R: Wait>(rt: &R, cell: &VCell<Book>, pass: Pass<Book>) -> (Pass<Book>, Numbers)
    requires { IsPassOf cell.now pass }
    ensures own { IsPassOf cell.now result.0 }
    ensures seen { IsPrefix pass.seen result.0.seen }
{
    let mut held = cell.enter(rt, pass);
    let read = numbers_of(held.value());
    (held.leave(), read)
}

// The first outcome of a turn, and where it was want of memory, whether the book was left as it was, and the second one.
fn turn_twice<R: Wait>(
    rt: &R,
    alloc: Global,
    cell: &VCell<Book>,
    pass: Pass<Book>,
    mut replica: Replica,
    frame: &Frame,
    before: Numbers,
    u: u64,
) -> (Pass<Book>, Outcome, Trial)
    requires own { IsPassOf cell.now pass }
    requires replica { IsReplicaAt cell.now.ground pass.seen replica }
    requires frame { IsHeldFrame cell.now.ground.problem.points frame.now }
    requires turn { u < turns_of (order_of LIMITS) cell.now.ground.problem.inputs }
    ensures own { IsPassOf cell.now result.0 }
{
    let (pass, first) = take_turn(rt, alloc, cell, pass, &mut replica, frame, &LIMITS, u);
    if first != Outcome::NoMemory {
        return (pass, first, Trial::Answered);
    }
    let (pass, after) = look(rt, cell, pass);
    let (pass, second) = take_turn(rt, alloc, cell, pass, &mut replica, frame, &LIMITS, u);
    (pass, second, unless_broken(after == before, Trial::Kept))
}

// What turns 0, 1 and 4 come to on the opening: a walk that finds no better plan, the row, and a descent that saves a round. And what the book has then.
fn wanted(u: u64) -> (Outcome, Numbers) {
    let opening = Numbers {
        total: 5,
        entries: 0,
        front: 0,
        bound: 0,
    };
    match u {
        0 => (Outcome::NotBetter { base: 0 }, opening),
        1 => (
            Outcome::Kept { place: 0 },
            Numbers {
                entries: 1,
                ..opening
            },
        ),
        _ => (
            Outcome::Published { place: 0, saved: 1 },
            Numbers {
                total: 4,
                entries: 1,
                front: 1,
                bound: 0,
            },
        ),
    }
}

// Whether the run of these limits has such a turn.
fn is_turn(book: &Book, u: u64) -> bool
    ensures { IsTrue result → u < turns_of (order_of LIMITS) book.now.problem.inputs }
{
    let inst = book.plan().inst();
    let _ = inst.count();
    u < turn_count(&LIMITS, inst.inputs())
}

// The turn at a lock with one pass.
fn turn_at<R: Wait>(
    rt: &R,
    alloc: Global,
    cell: &VCell<Book>,
    pass: Pass<Book>,
    frame: &Frame,
    u: u64,
) -> Result<Trial, AllocError>
    requires own { IsPassOf cell.now pass }
    requires frame { IsHeldFrame cell.now.ground.problem.points frame.now }
    requires turn { u < turns_of (order_of LIMITS) cell.now.ground.problem.inputs }
{
    let (pass, before) = look(rt, cell, pass);
    let (pass, replica) = replica_of(rt, alloc, cell, pass);
    let replica = replica?;
    let (pass, outcome, trial) = turn_twice(rt, alloc, cell, pass, replica, frame, before, u);
    let (_, after) = look(rt, cell, pass);
    Ok(unless_broken((outcome, after) == wanted(u), trial))
}

pub(crate) fn try_turn<R: Wait>(rt: &R, alloc: Global, u: u64) -> Result<Trial, AllocError> {
    let book = opened(alloc, OCTAGON)?;
    let frame = Frame::of(alloc, book.plan().inst())?;
    if !is_turn(&book, u) {
        return Ok(Trial::Broken);
    }
    let Ok((cell, mut passes)) = VCell::make(alloc, book, 1) else {
        return Err(AllocError);
    };
    match passes.pop() {
        Some(pass) => turn_at(rt, alloc, &cell, pass, &frame, u),
        None => Ok(Trial::Broken),
    }
}
