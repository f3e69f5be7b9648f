// The clauses that say that nothing changes but by flips.
ghost use Rattle.std.specs.Prelude.{◌≡◌, ◌<◌, ◌≤◌, ◌++◌, length, OnOk, IfOk};
ghost use Rattle.formula_law.specs.Formula.{change_clauses, leave_clause, come_clause, variable_count, there, made};
ghost use Rattle.formula_parts.specs.Building.{IsFrameOfSome, Takes, adding};
ghost use Rattle.formula_parts.specs.Lists.{edge_at};

use crate::numbers::{made, there};
use formula_parts::Lists;
use rup_check::{Clause, Cnf};
use std::alloc::{AllocError, Global};

// That the segment with the number `e` isn't there before round `t`, or is there after it, or a flip from it is made.
fn leave(alloc: Global, lists: &Lists, k: u32, t: u32, e: u32) -> Result<Clause, AllocError>
    requires frame { IsFrameOfSome lists.now }
    requires few { variable_count lists.now k ≤ 400_000 }
    requires rounds { k ≤ 400_000 }
    requires round { t < k }
    requires within { e < length lists.now.segments }
    ensures { IfOk result (λ clause. clause ≡ leave_clause lists.now (there lists.now) (made lists.now k) t (edge_at lists.now.segments e)) }
{
    let mut clause = Clause::make(alloc);
    clause.push(there(lists, t, e, false))?;
    clause.push(there(lists, t + 1, e, true))?;
    for n in 0..lists.flips() {
        if lists.flip(n).0 == e {
            clause.push(made(lists, k, t, n, true))?;
        }
    }
    Ok(clause)
}

// That it is there before round `t`, or isn't there after it, or a flip to it is made.
fn come(alloc: Global, lists: &Lists, k: u32, t: u32, e: u32) -> Result<Clause, AllocError>
    requires frame { IsFrameOfSome lists.now }
    requires few { variable_count lists.now k ≤ 400_000 }
    requires rounds { k ≤ 400_000 }
    requires round { t < k }
    requires within { e < length lists.now.segments }
    ensures { IfOk result (λ clause. clause ≡ come_clause lists.now (there lists.now) (made lists.now k) t (edge_at lists.now.segments e)) }
{
    let mut clause = Clause::make(alloc);
    clause.push(there(lists, t, e, true))?;
    clause.push(there(lists, t + 1, e, false))?;
    for n in 0..lists.flips() {
        if lists.flip(n).1 == e {
            clause.push(made(lists, k, t, n, true))?;
        }
    }
    Ok(clause)
}

// Adds what says that nothing changes in round `t` but by flips.
pub(crate) fn add_changes(
    alloc: Global,
    cnf: &mut Cnf,
    lists: &Lists,
    k: u32,
    t: u32,
) -> Result<(), AllocError>
    requires frame { IsFrameOfSome lists.now }
    requires few { variable_count lists.now k ≤ 400_000 }
    requires rounds { k ≤ 400_000 }
    requires round { t < k }
    requires takes { Takes cnf.old (change_clauses lists.now (there lists.now) (made lists.now k) t) }
    ensures { OnOk result (cnf.new ≡ adding cnf.old (change_clauses lists.now (there lists.now) (made lists.now k) t)) }
{
    for e in 0..lists.segments() {
        let left = leave(alloc, lists, k, t, e)?;
        cnf.add(left)?;
        let came = come(alloc, lists, k, t, e)?;
        cnf.add(came)?;
    }
    Ok(())
}
