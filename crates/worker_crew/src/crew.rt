// As many workers as there are passes.
ghost use Rattle.std.specs.Prelude.{◌≡◌, ◌+◌, ◌≤◌, [], length, All};
ghost use Rattle.vcell.specs.Passes.{IsPassOf};
ghost use Rattle.claims.specs.Draws.{IsSeatOf};
ghost use Rattle.flip_cnf.specs.HeldFrames.{IsHeldFrame};
ghost use Rattle.plan_law.specs.Solving.{turns_of};
ghost use Rattle.worker_pool.specs.Jobs.{AreLimits, order_of};
ghost use Rattle.worker_crew.specs.Workers.{HasTaken, HaveTaken};
ghost use denote.Param.Send.{IsSync};

use crate::Gate;
use crate::taken::{Parts, TakenList};
use crate::worker::work;
use book_core::Book;
use claims::{ClaimSeat, ClaimSeats, Claims};
use flip_cnf::Frame;
use std::alloc::Global;
use std::sync::Wait;
use std::thread::{Threads, join};
use vcell::{Pass, PassList, VCell};
use worker_pool::Limits;

// As many workers as there are passes, each in a thread of its own where one can be made. There is room for what each leaves.
pub(crate) fn crew<R: Threads + Wait + Sync, G: Gate + Sync>(
    rt: &R,
    alloc: Global,
    cell: &VCell<Book>,
    claims: &Claims,
    frame: &Frame,
    limits: &Limits,
    gate: &G,
    mut passes: PassList<Book>,
    mut seats: ClaimSeats,
    parts: Parts,
) -> (PassList<Book>, ClaimSeats, Parts)
    requires count { length passes.items ≡ length seats.items }
    requires passes { All (λ p. IsPassOf cell.now p × (p.made ≡ 0)) passes.items }
    requires seats { All (λ s. IsSeatOf claims.now s × (s.numbers ≡ [])) seats.items }
    requires parts { (parts.items ≡ []) × (length passes.items ≤ parts.spare) }
    requires frame { IsHeldFrame cell.now.ground.problem.points frame.now }
    requires limits { AreLimits limits.now }
    requires turns { claims.now.turns ≡ turns_of (order_of limits.now) cell.now.ground.problem.inputs }
    ensures count { (length result.0.items ≡ length passes.items) × (length result.1.items ≡ length seats.items) }
    ensures spare { (result.0.spare ≡ passes.spare) × (result.1.spare ≡ seats.spare) × (result.2.spare + length passes.items ≡ parts.spare) }
    ensures passes { All (IsPassOf cell.now) result.0.items }
    ensures seats { All (IsSeatOf claims.now) result.1.items }
    ensures taken { HaveTaken limits.now frame.now cell.now.ground result.1.items result.0.items result.2.items }
{
    let Some(pass) = passes.pop() else {
        return (passes, seats, parts);
    };
    let Some(seat) = seats.pop() else {
        unreachable!()
    };
    let ((pass, seat, part), (mut passes, mut seats, mut parts)) = join(
        rt,
        || -> (Pass<Book>, ClaimSeat, TakenList)
            requires { IsPassOf cell.now pass × IsSeatOf claims.now seat × (pass.made ≡ 0) × (seat.numbers ≡ []) × IsHeldFrame cell.now.ground.problem.points frame.now × AreLimits limits.now × (claims.now.turns ≡ turns_of (order_of limits.now) cell.now.ground.problem.inputs) }
            ensures { IsPassOf cell.entry.now result.0 × IsSeatOf claims.entry.now result.1 × HasTaken limits.entry.now frame.entry.now cell.entry.now.ground result.1.numbers result.0 result.2 }
        { work(rt, alloc, cell, claims, frame, limits, gate, pass, seat) },
        || -> (PassList<Book>, ClaimSeats, Parts)
            requires { IsSync R.row × (length passes.items ≡ length seats.items) × All (λ p. IsPassOf cell.now p × (p.made ≡ 0)) passes.items × All (λ s. IsSeatOf claims.now s × (s.numbers ≡ [])) seats.items × (parts.items ≡ []) × (length passes.items ≤ parts.spare) × IsHeldFrame cell.now.ground.problem.points frame.now × AreLimits limits.now × (claims.now.turns ≡ turns_of (order_of limits.now) cell.now.ground.problem.inputs) }
            ensures { (length result.0.items ≡ length passes.items) × (length result.1.items ≡ length seats.items) × (result.0.spare ≡ passes.spare) × (result.1.spare ≡ seats.spare) × (result.2.spare + length passes.items ≡ parts.spare) × All (IsPassOf cell.entry.now) result.0.items × All (IsSeatOf claims.entry.now) result.1.items × HaveTaken limits.entry.now frame.entry.now cell.entry.now.ground result.1.items result.0.items result.2.items }
        {
            crew(
                rt, alloc, cell, claims, frame, limits, gate, passes, seats, parts,
            )
        },
    );
    passes.push_spared(pass);
    seats.push_spared(seat);
    parts.push_spared(part);
    (passes, seats, parts)
}
