// The clauses that say which segments are there at first and at last.
ghost use Rattle.std.specs.Prelude.{◌≡◌, ◌≤◌, true, Contains, IfOk, OnOk};
ghost use Rattle.tri_theory.specs.Triangulations.{IsTriangulation};
ghost use Rattle.formula_parts.specs.Building.{Takes, adding};
ghost use Rattle.pruned_cnf.specs.Groups.{layer_in, place_literal};

use crate::numbering::Numbering;
use crate::writing::literals::{lists_of, push_if_live};
use edge_table::Edge;
use rup_check::{Clause, Cnf};
use std::alloc::{AllocError, Global};
use tri_check::Triang;

// That the segment `e` is there after `t` rounds. The clause is empty where it can't be.
fn is_there(alloc: Global, numbering: &Numbering, t: u32, e: Edge) -> Result<Clause, AllocError>
    requires layer { t ≤ numbering.now.rounds }
    requires segment { Contains numbering.now.frame.segments e }
    ensures { IfOk result (λ clause. clause ≡ place_literal numbering.now t e true) }
{
    let mut clause = Clause::make(alloc);
    let n = lists_of(numbering).number(e);
    push_if_live(&mut clause, numbering, t, n, true)?;
    Ok(clause)
}

// Adds what says that after `t` rounds the edges of a triangulation are there.
pub(crate) fn add_layer(
    alloc: Global,
    cnf: &mut Cnf,
    numbering: &Numbering,
    t: u32,
    edges: &Triang,
) -> Result<(), AllocError>
    requires layer { t ≤ numbering.now.rounds }
    requires edges { IsTriangulation numbering.now.points edges.now.edges }
    requires takes { Takes cnf.old (layer_in numbering.now t edges.now.edges) }
    ensures { OnOk result (cnf.new ≡ adding cnf.old (layer_in numbering.now t edges.now.edges)) }
{
    let _lists = lists_of(numbering);
    for i in 0..edges.len() {
        let clause = is_there(alloc, numbering, t, edges.edge_at(i))?;
        cnf.add(clause)?;
    }
    Ok(())
}
