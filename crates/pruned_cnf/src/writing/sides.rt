// The sides of a flip's quadrilateral, as literals.
ghost use Rattle.std.specs.Prelude.{◌≡◌, ◌<◌, ◌++◌, length, Contains, OnOk, All};
ghost use Rattle.std.specs.List.{flat_map};
ghost use Rattle.edge_table.specs.Edges.{edge};
ghost use Rattle.formula_law.specs.Formula.{sides};
ghost use Rattle.formula_parts.specs.Building.{four};
ghost use Rattle.formula_parts.specs.Lists.{edge_at, pair_of};
ghost use Rattle.pruned_cnf.specs.Groups.{stays};

use crate::numbering::Numbering;
use crate::writing::literals::{lists_of, push_if_live};
use edge_table::Edge;
use rup_check::Clause;
use std::alloc::AllocError;

// Puts at the end that the segment with the number `n` is there before round `t` and after it, where it can be.
fn push_stay(lits: &mut Clause, numbering: &Numbering, t: u32, n: u32) -> Result<(), AllocError>
    requires rounds { t < 400_000 }
    requires round { t < numbering.now.rounds }
    requires within { n < length numbering.now.frame.segments }
    ensures { OnOk result (lits.new ≡ lits.old ++ stays numbering.now t (edge_at numbering.now.frame.segments n)) }
{
    push_if_live(lits, numbering, t, n, true)?;
    push_if_live(lits, numbering, t + 1, n, true)?;
    Ok(())
}

// Puts at the end that the segment of `a` and `b` is there before round `t` and after it, where it can be.
fn push_side(
    lits: &mut Clause,
    numbering: &Numbering,
    t: u32,
    a: u32,
    b: u32,
) -> Result<(), AllocError>
    requires round { t < numbering.now.rounds }
    requires segment { Contains numbering.now.frame.segments (edge a b) }
    ensures { OnOk result (lits.new ≡ lits.old ++ stays numbering.now t (edge a b)) }
{
    let lists = lists_of(numbering);
    match Edge::of(a, b) {
        Some(e) => push_stay(lits, numbering, t, lists.number(e)),
        None => unreachable!(),
    }
}

// The same of the edges from each end of `e` to each end of `f`, in this order.
fn push_four(
    lits: &mut Clause,
    numbering: &Numbering,
    t: u32,
    e: Edge,
    f: Edge,
) -> Result<(), AllocError>
    requires round { t < numbering.now.rounds }
    requires segments { All (λ s. Contains numbering.now.frame.segments s) (four e f) }
    ensures { OnOk result (lits.new ≡ lits.old ++ flat_map (stays numbering.now t) (four e f)) }
{
    let a = e.low();
    let c = e.high();
    let b = f.low();
    let d = f.high();
    push_side(lits, numbering, t, a, b)?;
    push_side(lits, numbering, t, a, d)?;
    push_side(lits, numbering, t, c, b)?;
    push_side(lits, numbering, t, c, d)?;
    Ok(())
}

// The same of the four sides of the flip of `e` to `f`, in edge order.
pub(crate) fn push_sides(
    lits: &mut Clause,
    numbering: &Numbering,
    t: u32,
    e: Edge,
    f: Edge,
) -> Result<(), AllocError>
    requires round { t < numbering.now.rounds }
    requires flip { Contains numbering.now.frame.flips (pair_of e f) }
    ensures { OnOk result (lits.new ≡ lits.old ++ flat_map (stays numbering.now t) (sides numbering.now.frame (pair_of e f))) }
{
    let _lists = lists_of(numbering);
    let a = e.low();
    let b = f.low();
    if a < b {
        push_four(lits, numbering, t, e, f)
    } else {
        push_four(lits, numbering, t, f, e)
    }
}
