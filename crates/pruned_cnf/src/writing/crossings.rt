// The clauses that say that no two segments that cross are there.
ghost use Rattle.std.specs.Prelude.{◌≡◌, ◌<◌, ◌≤◌, ◌&&◌, length, IfOk, OnOk};
ghost use Rattle.formula_parts.specs.Building.{Takes, adding, pair_at};
ghost use Rattle.pruned_cnf.specs.Groups.{crossings_in, crossing_clause, not_both};
ghost use Rattle.pruned_cnf.specs.Queries.{live_in};

use crate::numbering::Numbering;
use crate::writing::literals::{can_be_there, lists_of, push_if_live};
use rup_check::{Clause, Cnf};
use std::alloc::{AllocError, Global};

// That after `t` rounds not both segments of the pair with the number `n` are there.
fn not_both(alloc: Global, numbering: &Numbering, t: u32, n: u32) -> Result<Clause, AllocError>
    requires layer { t ≤ numbering.now.rounds }
    requires within { n < length numbering.now.frame.crossings }
    ensures { IfOk result (λ clause. clause ≡ not_both numbering.now t (pair_at numbering.now.frame.crossings n)) }
{
    let g = lists_of(numbering).crossing(n);
    let mut clause = Clause::make(alloc);
    push_if_live(&mut clause, numbering, t, g.0, false)?;
    push_if_live(&mut clause, numbering, t, g.1, false)?;
    Ok(clause)
}

// Whether both segments of the pair with the number `n` can be there after `t` rounds.
fn may_both(numbering: &Numbering, t: u32, n: u32) -> bool
    requires { n < length numbering.now.frame.crossings }
    ensures { result ≡ (live_in numbering.now t (pair_at numbering.now.frame.crossings n).0 && live_in numbering.now t (pair_at numbering.now.frame.crossings n).1) }
{
    let g = lists_of(numbering).crossing(n);
    can_be_there(numbering, t, g.0) && can_be_there(numbering, t, g.1)
}

// Adds the clause of the pair with the number `n`, where both can be there after `t` rounds.
fn add_crossing(
    alloc: Global,
    cnf: &mut Cnf,
    numbering: &Numbering,
    t: u32,
    n: u32,
) -> Result<(), AllocError>
    requires layer { t ≤ numbering.now.rounds }
    requires within { n < length numbering.now.frame.crossings }
    requires takes { Takes cnf.old (crossing_clause numbering.now t (pair_at numbering.now.frame.crossings n)) }
    ensures { OnOk result (cnf.new ≡ adding cnf.old (crossing_clause numbering.now t (pair_at numbering.now.frame.crossings n))) }
{
    if may_both(numbering, t, n) {
        let clause = not_both(alloc, numbering, t, n)?;
        cnf.add(clause)?;
    }
    Ok(())
}

// Adds what says that after `t` rounds no two segments that cross are there.
pub(crate) fn add_crossings(
    alloc: Global,
    cnf: &mut Cnf,
    numbering: &Numbering,
    t: u32,
) -> Result<(), AllocError>
    requires layer { t ≤ numbering.now.rounds }
    requires takes { Takes cnf.old (crossings_in numbering.now t) }
    ensures { OnOk result (cnf.new ≡ adding cnf.old (crossings_in numbering.now t)) }
{
    for n in 0..lists_of(numbering).crossings() {
        add_crossing(alloc, cnf, numbering, t, n)?;
    }
    Ok(())
}
