// The sides of a flip's quadrilateral, as literals.
ghost use Rattle.std.specs.Prelude.{◌≡◌, ◌<◌, ◌++◌, Contains, OnOk, All};
ghost use Rattle.std.specs.List.{flat_map};
ghost use Rattle.edge_table.specs.Edges.{edge};
ghost use Rattle.formula_law.specs.Formula.{sides};
ghost use Rattle.formula_parts.specs.Building.{IsFrameOfSome, four};
ghost use Rattle.flip_cnf.specs.Building.{stays};
ghost use Rattle.formula_parts.specs.Lists.{pair_of};

use crate::numbers::there;
use edge_table::Edge;
use formula_parts::Lists;
use rup_check::Clause;
use std::alloc::AllocError;

// Puts at the end that the segment of `a` and `b` is there before round `t` and after it.
fn push_side(lits: &mut Clause, lists: &Lists, t: u32, a: u32, b: u32) -> Result<(), AllocError>
    requires frame { IsFrameOfSome lists.now }
    requires rounds { t < 400_000 }
    requires segment { Contains lists.now.segments (edge a b) }
    ensures { OnOk result (lits.new ≡ lits.old ++ stays lists.now t (edge a b)) }
{
    match Edge::of(a, b) {
        Some(e) => {
            let n = lists.number(e);
            lits.push(there(lists, t, n, true))?;
            lits.push(there(lists, t + 1, n, true))?;
            Ok(())
        }
        None => unreachable!(),
    }
}

// The same of the edges from each end of `e` to each end of `f`, in this order.
fn push_four(lits: &mut Clause, lists: &Lists, t: u32, e: Edge, f: Edge) -> Result<(), AllocError>
    requires frame { IsFrameOfSome lists.now }
    requires rounds { t < 400_000 }
    requires segments { All (λ s. Contains lists.now.segments s) (four e f) }
    ensures { OnOk result (lits.new ≡ lits.old ++ flat_map (stays lists.now t) (four e f)) }
{
    let a = e.low();
    let c = e.high();
    let b = f.low();
    let d = f.high();
    push_side(lits, lists, t, a, b)?;
    push_side(lits, lists, t, a, d)?;
    push_side(lits, lists, t, c, b)?;
    push_side(lits, lists, t, c, d)?;
    Ok(())
}

// The same of the four sides of the flip of `e` to `f`, in edge order.
pub(crate) fn push_sides(
    lits: &mut Clause,
    lists: &Lists,
    t: u32,
    e: Edge,
    f: Edge,
) -> Result<(), AllocError>
    requires frame { IsFrameOfSome lists.now }
    requires rounds { t < 400_000 }
    requires flip { Contains lists.now.flips (pair_of e f) }
    ensures { OnOk result (lits.new ≡ lits.old ++ flat_map (stays lists.now t) (sides lists.now (pair_of e f))) }
{
    let a = e.low();
    let b = f.low();
    if a < b {
        push_four(lits, lists, t, e, f)
    } else {
        push_four(lits, lists, t, f, e)
    }
}
