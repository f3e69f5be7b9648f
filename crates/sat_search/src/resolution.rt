// The resolution of a conflict back along the trail.
ghost use Rattle.std.specs.Prelude.{◌≡◌, ◌≢◌, ◌⊎◌, ◌↔◌, ℕ, ◌<◌, ◌≤◌, ◌++◌, ◌∷◌, [], true, false, None, length, All, Contains, IfOk, OnOk};
ghost use Rattle.log_law.specs.Clauses.{IsClause};
ghost use Rattle.log_law.specs.Trails.{step_at, Names};
ghost use Rattle.log_law.specs.SearchLaws.{IsConflict};
ghost use Rattle.sat_state.specs.Searches.{IsSearch};
ghost use Rattle.sat_search.specs.Resolutions.{IsResolving, IsLast, IsResolved};

use rup_check::Clause;
use sat_state::State;
use std::alloc::{AllocError, Global};
use std::collections::BTreeSet;

// The clause that is left, as the places of the steps that make its literals false.
#[derive(Drop)]
pub(crate) struct Resolution {
    // the clause that was falsified
    pub(crate) conflict: u32,
    // places that the way back hasn't come to
    pub(crate) pending: BTreeSet<u32, Global>,
    // places that it leaves, the last on the trail first
    pub(crate) left: Vec<u32>,
    // the reasons that were used, the last on the trail first
    pub(crate) reasons: Vec<u32>,
}

// The level of the step at a place.
fn level_at(state: &State, place: u32) -> u32
    requires search { IsSearch state.now }
    requires within { place < length state.now.trail }
    ensures { result ≡ (step_at state.now.trail place).level }
{
    state.level_of(state.trail_at(place).var).unwrap_or(0)
}

// Adds the places before one at which variables of a clause were assigned.
fn add_places(
    pending: &mut BTreeSet<u32, Global>,
    state: &State,
    clause: &Clause,
    before: u32,
) -> Result<(), AllocError>
    requires search { IsSearch state.now }
    requires fits { IsClause state.now.variables clause.now }
    ensures { OnOk result ((p : ℕ) → Contains pending.new.keys p ↔ (Contains pending.old.keys p ⊎ ((p < before) × (p < length state.now.trail) × Names clause.now (step_at state.now.trail p).literal.var))) }
{
    for i in 0..clause.len() {
        if let Some(place) = state.place(clause.at(i).var) {
            if place < before {
                pending.insert(place)?;
            }
        }
    }
    Ok(())
}

// Begins with the clause that is falsified.
fn begin(alloc: Global, state: &State, conflict: u32) -> Result<Resolution, AllocError>
    requires search { IsSearch state.now }
    requires conflict { IsConflict state.now.clauses state.now.trail conflict }
    ensures conflict { IfOk result (λ r. r.conflict ≡ conflict) }
    ensures left { IfOk result (λ r. r.left.items ≡ []) }
    ensures resolving { IfOk result (λ r. IsResolving state.now conflict r.pending.keys r.left.items r.reasons.items) }
{
    let mut pending = BTreeSet::new(alloc);
    add_places(
        &mut pending,
        state,
        state.clause(conflict),
        state.trail_len(),
    )?;
    Ok(Resolution {
        conflict,
        pending,
        left: Vec::new(alloc),
        reasons: Vec::new(alloc),
    })
}

// Goes back over the step at the last pending place, which was taken out.
fn go_back(r: &mut Resolution, state: &State, place: u32) -> Result<(), AllocError>
    requires search { IsSearch state.now }
    requires resolving { IsResolving state.now r.old.conflict (r.old.pending.keys ++ place ∷ []) r.old.left.items r.old.reasons.items }
    requires last { All (λ p. p < place) r.old.pending.keys }
    requires reason { (step_at state.now.trail place).reason ≢ None }
    ensures conflict { OnOk result (r.new.conflict ≡ r.old.conflict) }
    ensures left { OnOk result (r.new.left.items ≡ r.old.left.items) }
    ensures pending { OnOk result ((p : ℕ) → Contains r.new.pending.keys p → Contains r.old.pending.keys p ⊎ (p < place)) }
    ensures resolving { OnOk result (IsResolving state.now r.new.conflict r.new.pending.keys r.new.left.items r.new.reasons.items) }
{
    match state.reason(state.trail_at(place).var) {
        Some(reason) => {
            add_places(&mut r.pending, state, state.clause(reason), place)?;
            r.reasons.push(reason)?;
            Ok(())
        },
        None => unreachable!(),
    }
}

// Whether all pending places are of lower levels than the present one.
fn are_lower(pending: &BTreeSet<u32, Global>, state: &State) -> bool
    requires search { IsSearch state.now }
    requires within { All (λ p. p < length state.now.trail) pending.now.keys }
    ensures lower { result ≡ true → All (λ p. (step_at state.now.trail p).level < state.now.level) pending.now.keys }
    ensures another { result ≡ false → (p : ℕ) × Contains pending.now.keys p × ((step_at state.now.trail p).level ≡ state.now.level) }
{
    match pending.last() {
        Some(place) => level_at(state, *place) < state.level(),
        None => true,
    }
}

// Goes back until one place alone is of the present level, and leaves that.
fn go_to_last(r: &mut Resolution, state: &State) -> Result<(), AllocError>
    requires search { IsSearch state.now }
    requires above { 0 < state.now.level }
    requires conflict { IsConflict state.now.clauses state.now.trail r.old.conflict }
    requires left { r.old.left.items ≡ [] }
    requires resolving { IsResolving state.now r.old.conflict r.old.pending.keys r.old.left.items r.old.reasons.items }
    ensures conflict { OnOk result (r.new.conflict ≡ r.old.conflict) }
    ensures last { OnOk result (IsLast state.now r.new.pending.keys r.new.left.items) }
    ensures resolving { OnOk result (IsResolving state.now r.new.conflict r.new.pending.keys r.new.left.items r.new.reasons.items) }
{
    while let Some(place) = r.pending.pop_last() {
        if are_lower(&r.pending, state) {
            r.left.push(place)?;
            return Ok(());
        }
        go_back(r, state, place)?;
    }
    unreachable!()
}

// Goes back over the pending steps of level 0, and leaves the others.
fn go_over_ground(r: &mut Resolution, state: &State) -> Result<(), AllocError>
    requires search { IsSearch state.now }
    requires resolving { IsResolving state.now r.old.conflict r.old.pending.keys r.old.left.items r.old.reasons.items }
    ensures conflict { OnOk result (r.new.conflict ≡ r.old.conflict) }
    ensures pending { OnOk result (r.new.pending.keys ≡ []) }
    ensures stay { OnOk result ((p : ℕ) → Contains r.old.left.items p → Contains r.new.left.items p) }
    ensures left { OnOk result ((p : ℕ) → Contains r.new.left.items p → Contains r.old.left.items p ⊎ (Contains r.old.pending.keys p × (0 < (step_at state.now.trail p).level))) }
    ensures resolving { OnOk result (IsResolving state.now r.new.conflict r.new.pending.keys r.new.left.items r.new.reasons.items) }
{
    while let Some(place) = r.pending.pop_last() {
        if level_at(state, place) > 0 {
            r.left.push(place)?;
        } else {
            go_back(r, state, place)?;
        }
    }
    Ok(())
}

// Resolves a conflict: above level 0 until one place alone is of the present level, and all literals of level 0 away.
pub(crate) fn resolve(alloc: Global, state: &State, conflict: u32) -> Result<Resolution, AllocError>
    requires search { IsSearch state.now }
    requires conflict { IsConflict state.now.clauses state.now.trail conflict }
    ensures conflict { IfOk result (λ r. r.conflict ≡ conflict) }
    ensures resolving { IfOk result (λ r. IsResolving state.now conflict [] r.left.items r.reasons.items) }
    ensures ends { IfOk result (λ r. IsResolved state.now r.left.items) }
{
    let mut r = begin(alloc, state, conflict)?;
    if state.level() > 0 {
        go_to_last(&mut r, state)?;
    }
    go_over_ground(&mut r, state)?;
    Ok(r)
}
