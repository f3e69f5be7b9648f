// One worker: it draws turns, and takes each, until none is left.
ghost use Rattle.std.specs.Prelude.{◌≡◌, [], IfOk};
ghost use mathlib.Core.List.{IsPrefix};
ghost use Rattle.vcell.specs.Passes.{IsPassOf};
ghost use Rattle.claims.specs.Draws.{IsSeatOf};
ghost use Rattle.flip_cnf.specs.HeldFrames.{IsHeldFrame};
ghost use Rattle.plan_law.specs.Solving.{turns_of};
ghost use Rattle.worker_pool.specs.Jobs.{AreLimits, order_of};
ghost use Rattle.worker_pool.specs.Turns.{IsReplicaAt};
ghost use Rattle.worker_crew.specs.Workers.{HasTaken};

use crate::Gate;
use crate::taken::{Taken, TakenList};
use book_core::{Book, Replica};
use claims::{ClaimSeat, Claims};
use flip_cnf::Frame;
use std::alloc::{AllocError, Global};
use std::sync::Wait;
use vcell::{Pass, VCell};
use worker_pool::{Limits, Outcome, take_turn};

// What a worker keeps of the book, made in one holding of it, if there is memory for it.
fn replica_of<R: Wait>(
    rt: &R,
    alloc: Global,
    cell: &VCell<Book>,
    pass: Pass<Book>,
) -> (Pass<Book>, Result<Replica, AllocError>)
    requires own { IsPassOf cell.now pass }
    ensures own { IsPassOf cell.now result.0 }
    ensures seen { IsPrefix pass.seen result.0.seen }
    ensures made { result.0.made ≡ pass.made }
    ensures replica { IfOk result.1 (IsReplicaAt cell.now.ground result.0.seen) }
{
    let mut held = cell.enter(rt, pass);
    let replica = Replica::of(alloc, held.value());
    (held.leave(), replica)
}

// Takes drawn turns until no number is left, or until there is no memory to write down one more.
fn take_drawn<R: Wait, G: Gate>(
    rt: &R,
    alloc: Global,
    cell: &VCell<Book>,
    claims: &Claims,
    frame: &Frame,
    limits: &Limits,
    gate: &G,
    mut pass: Pass<Book>,
    mut seat: ClaimSeat,
    mut replica: Replica,
) -> (Pass<Book>, ClaimSeat, TakenList)
    requires own { IsPassOf cell.now pass × IsSeatOf claims.now seat }
    requires fresh { (pass.made ≡ 0) × (seat.numbers ≡ []) }
    requires replica { IsReplicaAt cell.now.ground pass.seen replica }
    requires frame { IsHeldFrame cell.now.ground.problem.points frame.now }
    requires limits { AreLimits limits.now }
    requires turns { claims.now.turns ≡ turns_of (order_of limits.now) cell.now.ground.problem.inputs }
    ensures own { IsPassOf cell.now result.0 × IsSeatOf claims.now result.1 }
    ensures taken { HasTaken limits.now frame.now cell.now.ground result.1.numbers result.0 result.2 }
{
    let mut taken = TakenList::make(alloc);
    for _ in rt.forever() {
        let Some(turn) = claims.draw(&mut seat) else {
            return (pass, seat, taken);
        };
        let place = taken.len();
        let unmade = Taken {
            turn,
            outcome: Outcome::NoMemory,
        };
        if taken.push(unmade).is_err() {
            return (pass, seat, taken);
        }
        gate.before(turn);
        let (next, outcome) = take_turn(rt, alloc, cell, pass, &mut replica, frame, limits, turn);
        pass = next;
        *taken.at_mut(place) = Taken { turn, outcome };
    }
    unreachable!()
}

// Makes a replica, and takes drawn turns with it. Where there is no memory for the replica, the turns are left to the other workers.
pub(crate) fn work<R: Wait, G: Gate>(
    rt: &R,
    alloc: Global,
    cell: &VCell<Book>,
    claims: &Claims,
    frame: &Frame,
    limits: &Limits,
    gate: &G,
    pass: Pass<Book>,
    seat: ClaimSeat,
) -> (Pass<Book>, ClaimSeat, TakenList)
    requires own { IsPassOf cell.now pass × IsSeatOf claims.now seat }
    requires fresh { (pass.made ≡ 0) × (seat.numbers ≡ []) }
    requires frame { IsHeldFrame cell.now.ground.problem.points frame.now }
    requires limits { AreLimits limits.now }
    requires turns { claims.now.turns ≡ turns_of (order_of limits.now) cell.now.ground.problem.inputs }
    ensures own { IsPassOf cell.now result.0 × IsSeatOf claims.now result.1 }
    ensures taken { HasTaken limits.now frame.now cell.now.ground result.1.numbers result.0 result.2 }
{
    let (pass, made) = replica_of(rt, alloc, cell, pass);
    match made {
        Ok(replica) => take_drawn(
            rt, alloc, cell, claims, frame, limits, gate, pass, seat, replica,
        ),
        Err(_) => (pass, seat, TakenList::make(alloc)),
    }
}
