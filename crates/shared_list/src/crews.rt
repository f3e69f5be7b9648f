// One worker, and as many as there are passes.
ghost use Rattle.std.specs.Prelude.{◌≡◌, ℕ, ◌+◌, ◌<◌, [], length, All, Contains, true, sum_by};
ghost use Rattle.std.specs.Bool.{OnTrue, OnFalse};
ghost use mathlib.Core.List.{IsPrefix};
ghost use Rattle.vcell.specs.Passes.{IsPassOf};
ghost use Rattle.claims.specs.Draws.{IsSeatOf, late, draws_of, late_draws};
ghost use Rattle.shared_list.specs.Turns.{HasTurnsOf, HasTurns};
ghost use denote.Param.Send.{IsSync};

use crate::numbers::Numbers;
use claims::{ClaimSeat, ClaimSeats, Claims};
use std::sync::Wait;
use std::thread::{Threads, join};
use vcell::{Pass, PassList, VCell};

/// Adds a number in one holding of the list, and answers whether there was memory for it.
fn add<R: Wait>(rt: &R, cell: &VCell<Numbers>, pass: Pass<Numbers>, x: u64) -> (Pass<Numbers>, bool)
    requires { IsPassOf cell.now pass }
    ensures own { IsPassOf cell.now result.0 }
    ensures seen { IsPrefix pass.seen result.0.seen }
    ensures added { OnTrue result.1 (Contains result.0.seen x × (result.0.made ≡ pass.made + 1)) }
{
    let mut held = cell.enter(rt, pass);
    let added = held.value().push(x).is_ok();
    (held.leave(), added)
}

/// Draws numbers until there are no more turns, and adds each. It answers whether there was memory for all.
fn worker<R: Wait>(
    rt: &R,
    cell: &VCell<Numbers>,
    claims: &Claims,
    mut pass: Pass<Numbers>,
    mut seat: ClaimSeat,
) -> (Pass<Numbers>, ClaimSeat, bool)
    requires own { IsPassOf cell.now pass × IsSeatOf claims.now seat }
    requires fresh { (pass.made ≡ 0) × (seat.numbers ≡ []) }
    ensures own { IsPassOf cell.now result.0 × IsSeatOf claims.now result.1 }
    ensures late { late claims.now.turns result.1.numbers ≡ 1 }
    ensures made { OnTrue result.2 (result.0.made + 1 ≡ length result.1.numbers) }
    ensures added { OnTrue result.2 (HasTurnsOf claims.now.turns result.1.numbers result.0.seen) }
{
    let mut whole = true;
    for _ in rt.forever() {
        let Some(number) = claims.draw(&mut seat) else {
            return (pass, seat, whole);
        };
        let (next, added) = add(rt, cell, pass, number);
        pass = next;
        whole = whole && added;
    }
    unreachable!()
}

fn all_of(a: bool, b: bool) -> bool
    ensures { OnTrue result ((a ≡ true) × (b ≡ true)) }
{
    a && b
}

/// As many workers as there are passes, each in a thread of its own where one can be made.
pub fn crew<R: Threads + Wait + Sync>(
    rt: &R,
    cell: &VCell<Numbers>,
    claims: &Claims,
    mut passes: PassList<Numbers>,
    mut seats: ClaimSeats,
) -> (PassList<Numbers>, ClaimSeats, bool)
    requires count { length passes.items ≡ length seats.items }
    requires passes { All (λ p. IsPassOf cell.now p × (p.made ≡ 0)) passes.items }
    requires seats { All (λ s. IsSeatOf claims.now s × (s.numbers ≡ [])) seats.items }
    ensures count { (length result.0.items ≡ length passes.items) × (length result.1.items ≡ length seats.items) }
    ensures spare { (result.0.spare ≡ passes.spare) × (result.1.spare ≡ seats.spare) }
    ensures passes { All (IsPassOf cell.now) result.0.items }
    ensures seats { All (IsSeatOf claims.now) result.1.items }
    ensures late { late_draws claims.now.turns result.1.items ≡ length seats.items }
    ensures made { OnTrue result.2 (sum_by (λ p. p.made) result.0.items + length seats.items ≡ draws_of result.1.items) }
    ensures added { OnTrue result.2 (HasTurns claims.now.turns result.1.items result.0.items) }
{
    let Some(pass) = passes.pop() else {
        return (passes, seats, true);
    };
    let Some(seat) = seats.pop() else {
        unreachable!()
    };
    let ((pass, seat, one), (mut passes, mut seats, others)) = join(
        rt,
        || -> (Pass<Numbers>, ClaimSeat, bool)
            requires { IsPassOf cell.now pass × IsSeatOf claims.now seat × (pass.made ≡ 0) × (seat.numbers ≡ []) }
            ensures { IsPassOf cell.entry.now result.0 × IsSeatOf claims.entry.now result.1 × (late claims.entry.now.turns result.1.numbers ≡ 1) × OnTrue result.2 (result.0.made + 1 ≡ length result.1.numbers) × OnTrue result.2 (HasTurnsOf claims.entry.now.turns result.1.numbers result.0.seen) }
        { worker(rt, cell, claims, pass, seat) },
        || -> (PassList<Numbers>, ClaimSeats, bool)
            requires { IsSync R.row × (length passes.items ≡ length seats.items) × All (λ p. IsPassOf cell.now p × (p.made ≡ 0)) passes.items × All (λ s. IsSeatOf claims.now s × (s.numbers ≡ [])) seats.items }
            ensures { (length result.0.items ≡ length passes.items) × (length result.1.items ≡ length seats.items) × (result.0.spare ≡ passes.spare) × (result.1.spare ≡ seats.spare) × All (IsPassOf cell.entry.now) result.0.items × All (IsSeatOf claims.entry.now) result.1.items × (late_draws claims.entry.now.turns result.1.items ≡ length seats.items) × OnTrue result.2 (sum_by (λ p. p.made) result.0.items + length seats.items ≡ draws_of result.1.items) × OnTrue result.2 (HasTurns claims.entry.now.turns result.1.items result.0.items) }
        { crew(rt, cell, claims, passes, seats) },
    );
    passes.push_spared(pass);
    seats.push_spared(seat);
    (passes, seats, all_of(one, others))
}
