// The clauses that say what a flip asks.
ghost use Rattle.std.specs.Prelude.{◌≡◌, ◌<◌, ◌≤◌, length, map, IfOk, OnOk};
ghost use Rattle.formula_law.specs.Formula.{demands, flip_clauses, variable_count, there, made};
ghost use Rattle.formula_parts.specs.Building.{IsFrameOfSome, Takes, adding, pair_at, asks};
ghost use Rattle.flip_cnf.specs.Building.{asked};

use crate::build::sides::push_sides;
use crate::numbers::{made, there};
use formula_parts::{Lists, add_asked};
use rup_check::{Clause, Cnf};
use std::alloc::{AllocError, Global};

// What the flip with the number `n` asks of the segments before round `t` and after it.
fn demands(alloc: Global, lists: &Lists, t: u32, n: u32) -> Result<Clause, AllocError>
    requires frame { IsFrameOfSome lists.now }
    requires rounds { t < 400_000 }
    requires within { n < length lists.now.flips }
    ensures { IfOk result (λ lits. lits ≡ demands lists.now (there lists.now) t (pair_at lists.now.flips n)) }
{
    let g = lists.flip(n);
    let mut lits = Clause::make(alloc);
    lits.push(there(lists, t, g.0, true))?;
    lits.push(there(lists, t + 1, g.0, false))?;
    lits.push(there(lists, t, g.1, false))?;
    lits.push(there(lists, t + 1, g.1, true))?;
    push_sides(&mut lits, lists, t, lists.segment(g.0), lists.segment(g.1))?;
    Ok(lits)
}

// Adds what the flip with the number `n` asks where it is made in round `t`.
fn add_flip(
    alloc: Global,
    cnf: &mut Cnf,
    lists: &Lists,
    k: u32,
    t: u32,
    n: u32,
) -> Result<(), AllocError>
    requires frame { IsFrameOfSome lists.now }
    requires few { variable_count lists.now k ≤ 400_000 }
    requires rounds { k ≤ 400_000 }
    requires round { t < k }
    requires within { n < length lists.now.flips }
    requires takes { Takes cnf.old (asked lists.now k t (pair_at lists.now.flips n)) }
    ensures { OnOk result (cnf.new ≡ adding cnf.old (asked lists.now k t (pair_at lists.now.flips n))) }
{
    let lits = demands(alloc, lists, t, n)?;
    let unmade = made(lists, k, t, n, false);
    add_asked(alloc, cnf, unmade, &lits)?;
    Ok(())
}

// Adds what each flip asks where it is made in round `t`.
pub(crate) fn add_flips(
    alloc: Global,
    cnf: &mut Cnf,
    lists: &Lists,
    k: u32,
    t: u32,
) -> Result<(), AllocError>
    requires frame { IsFrameOfSome lists.now }
    requires few { variable_count lists.now k ≤ 400_000 }
    requires rounds { k ≤ 400_000 }
    requires round { t < k }
    requires takes { Takes cnf.old (flip_clauses lists.now (there lists.now) (made lists.now k) t) }
    ensures { OnOk result (cnf.new ≡ adding cnf.old (flip_clauses lists.now (there lists.now) (made lists.now k) t)) }
{
    for n in 0..lists.flips() {
        add_flip(alloc, cnf, lists, k, t, n)?;
    }
    Ok(())
}
