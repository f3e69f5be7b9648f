// The clauses that say that no two segments that cross are there.
ghost use Rattle.std.specs.Prelude.{◌≡◌, ◌≤◌, OnOk};
ghost use Rattle.formula_law.specs.Formula.{crossing_clauses, there};
ghost use Rattle.formula_parts.specs.Building.{IsFrameOfSome, Takes, adding};

use crate::numbers::there;
use formula_parts::{Lists, pair};
use rup_check::Cnf;
use std::alloc::{AllocError, Global};

// Adds what says that after `t` rounds no two segments that cross are there.
pub(crate) fn add_crossings(
    alloc: Global,
    cnf: &mut Cnf,
    lists: &Lists,
    t: u32,
) -> Result<(), AllocError>
    requires frame { IsFrameOfSome lists.now }
    requires rounds { t ≤ 400_000 }
    requires takes { Takes cnf.old (crossing_clauses lists.now (there lists.now) t) }
    ensures { OnOk result (cnf.new ≡ adding cnf.old (crossing_clauses lists.now (there lists.now) t)) }
{
    for n in 0..lists.crossings() {
        let g = lists.crossing(n);
        let clause = pair(
            alloc,
            there(lists, t, g.0, false),
            there(lists, t, g.1, false),
        )?;
        cnf.add(clause)?;
    }
    Ok(())
}
