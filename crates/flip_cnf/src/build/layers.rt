// The clauses that say which segments are there after some rounds.
ghost use Rattle.std.specs.Prelude.{◌≡◌, ◌≤◌, OnOk};
ghost use Rattle.formula_law.specs.Formula.{layer_clauses, there};
ghost use Rattle.formula_parts.specs.Building.{IsFrameOfSome, Takes, adding};

use crate::numbers::there;
use formula_parts::{Lists, unit};
use rup_check::Cnf;
use std::alloc::{AllocError, Global};
use tri_check::Triang;

// Adds what says that after `t` rounds the edges are those of a triangulation.
pub(crate) fn add_layer(
    alloc: Global,
    cnf: &mut Cnf,
    lists: &Lists,
    t: u32,
    edges: &Triang,
) -> Result<(), AllocError>
    requires frame { IsFrameOfSome lists.now }
    requires rounds { t ≤ 400_000 }
    requires takes { Takes cnf.old (layer_clauses lists.now (there lists.now) t edges.now.edges) }
    ensures { OnOk result (cnf.new ≡ adding cnf.old (layer_clauses lists.now (there lists.now) t edges.now.edges)) }
{
    for n in 0..lists.segments() {
        let on = edges.has(lists.segment(n));
        let clause = unit(alloc, there(lists, t, n, on))?;
        cnf.add(clause)?;
    }
    Ok(())
}
