// The line's parts that a resolution leaves: literals and hints.
ghost use Rattle.std.specs.Prelude.{◌≡◌, ◌++◌, ◌<◌, ◌∷◌, [], length, reverse, All, AllPairs, IfOk};
ghost use Rattle.log_law.specs.Trails.{HaveSame, negated_at};
ghost use Rattle.sat_state.specs.Searches.{IsSearch};

use crate::resolution::Resolution;
use log_law::Lit;
use rup_check::{Clause, Hints};
use sat_state::State;
use std::alloc::{AllocError, Global};

// The negations of the literals at these places.
fn negations(alloc: Global, state: &State, places: &[u32]) -> Result<Vec<Lit>, AllocError>
    requires { All (λ p. p < length state.now.trail) places.now }
    ensures { IfOk result (λ lits. lits.items ≡ negated_at state.now.trail places.now) }
{
    let mut lits = Vec::with_capacity(alloc, places.len())?;
    for place in places.iter().copied() {
        let made = state.trail_at(place);
        lits.push(Lit {
            var: made.var,
            on: !made.on,
        })?;
    }
    Ok(lits)
}

// The clause of these literals.
fn clause_of(alloc: Global, lits: &[Lit]) -> Result<Clause, AllocError>
    ensures { IfOk result (λ clause. clause ≡ lits.now) }
{
    let mut clause = Clause::make(alloc);
    for l in lits.iter().copied() {
        clause.push(l)?;
    }
    Ok(clause)
}

// The false literals of these places, by variable.
pub(crate) fn literals_left(
    alloc: Global,
    state: &State,
    places: &[u32],
) -> Result<Clause, AllocError>
    requires search { IsSearch state.now }
    requires within { All (λ p. p < length state.now.trail) places.now }
    requires descending { AllPairs (λ later earlier. earlier < later) places.now }
    ensures sorted { IfOk result (λ clause. AllPairs (λ k l. k.var < l.var) clause) }
    ensures same { IfOk result (λ clause. HaveSame clause (negated_at state.now.trail places.now)) }
{
    let mut lits = negations(alloc, state, places)?;
    lits.sort_unstable_by_key(|l| l.var);
    clause_of(alloc, &lits)
}

// The reasons in the order of the trail, and the conflict.
pub(crate) fn hints_of(alloc: Global, r: &Resolution) -> Result<Hints, AllocError>
    ensures { IfOk result (λ hints. hints ≡ reverse r.now.reasons.items ++ r.now.conflict ∷ []) }
{
    let mut hints = Hints::make(alloc);
    for reason in r.reasons.iter().rev().copied() {
        hints.push(reason)?;
    }
    hints.push(r.conflict)?;
    Ok(hints)
}
