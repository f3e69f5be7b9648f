// The clauses of the formula of k rounds, group by group.
ghost use Rattle.std.specs.Prelude.{◌≡◌, ◌+◌, ◌≤◌, IfOk, OnOk};
ghost use Rattle.std.specs.List.{flat_map, range_with_len};
ghost use Rattle.formula_law.specs.Formula.{crossing_clauses, flip_clauses, change_clauses, clause_count, variable_count, there, made};
ghost use Rattle.formula_law.specs.RefutationLaws.{whole};
ghost use Rattle.formula_parts.specs.Building.{IsFrameOfSome, Takes, adding};

mod changes;
mod crossings;
mod flips;
mod layers;
mod sides;

use crate::size::variables;
use changes::add_changes;
use crossings::add_crossings;
use flips::add_flips;
use formula_parts::Lists;
use layers::add_layer;
use rup_check::Cnf;
use std::alloc::{AllocError, Global};
use tri_check::Triang;

// Adds what says that no two segments that cross are there after each of the rounds.
fn add_all_crossings(alloc: Global, cnf: &mut Cnf, lists: &Lists, k: u32) -> Result<(), AllocError>
    requires frame { IsFrameOfSome lists.now }
    requires rounds { k ≤ 400_000 }
    requires takes { Takes cnf.old (flat_map (crossing_clauses lists.now (there lists.now)) (range_with_len 0 (k + 1))) }
    ensures { OnOk result (cnf.new ≡ adding cnf.old (flat_map (crossing_clauses lists.now (there lists.now)) (range_with_len 0 (k + 1)))) }
{
    for t in 0..k + 1 {
        add_crossings(alloc, cnf, lists, t)?;
    }
    Ok(())
}

// Adds what the flips of each round ask.
fn add_all_flips(alloc: Global, cnf: &mut Cnf, lists: &Lists, k: u32) -> Result<(), AllocError>
    requires frame { IsFrameOfSome lists.now }
    requires few { variable_count lists.now k ≤ 400_000 }
    requires rounds { k ≤ 400_000 }
    requires takes { Takes cnf.old (flat_map (flip_clauses lists.now (there lists.now) (made lists.now k)) (range_with_len 0 k)) }
    ensures { OnOk result (cnf.new ≡ adding cnf.old (flat_map (flip_clauses lists.now (there lists.now) (made lists.now k)) (range_with_len 0 k))) }
{
    for t in 0..k {
        add_flips(alloc, cnf, lists, k, t)?;
    }
    Ok(())
}

// Adds what says that nothing changes in each round but by flips.
fn add_all_changes(alloc: Global, cnf: &mut Cnf, lists: &Lists, k: u32) -> Result<(), AllocError>
    requires frame { IsFrameOfSome lists.now }
    requires few { variable_count lists.now k ≤ 400_000 }
    requires rounds { k ≤ 400_000 }
    requires takes { Takes cnf.old (flat_map (change_clauses lists.now (there lists.now) (made lists.now k)) (range_with_len 0 k)) }
    ensures { OnOk result (cnf.new ≡ adding cnf.old (flat_map (change_clauses lists.now (there lists.now) (made lists.now k)) (range_with_len 0 k))) }
{
    for t in 0..k {
        add_changes(alloc, cnf, lists, k, t)?;
    }
    Ok(())
}

// The formula of `k` rounds between two triangulations.
pub(crate) fn write(
    alloc: Global,
    lists: &Lists,
    from: &Triang,
    to: &Triang,
    k: u32,
) -> Result<Cnf, AllocError>
    requires frame { IsFrameOfSome lists.now }
    requires few { clause_count lists.now k ≤ 400_000 }
    requires rounds { k ≤ 400_000 }
    ensures { IfOk result (λ cnf. cnf ≡ whole lists.now from.now.edges to.now.edges k) }
{
    let mut cnf = Cnf::make(alloc, variables(lists, k));
    add_layer(alloc, &mut cnf, lists, 0, from)?;
    add_layer(alloc, &mut cnf, lists, k, to)?;
    add_all_crossings(alloc, &mut cnf, lists, k)?;
    add_all_flips(alloc, &mut cnf, lists, k)?;
    add_all_changes(alloc, &mut cnf, lists, k)?;
    Ok(cnf)
}
