// The clauses of a pruned formula, group by group.
ghost use Rattle.std.specs.Prelude.{◌≡◌, ◌+◌, ◌≤◌, length, IfOk, OnOk};
ghost use Rattle.std.specs.List.{flat_map, range_with_len};
ghost use Rattle.formula_parts.specs.Building.{Takes, adding};
ghost use Rattle.pruned_cnf.specs.Groups.{crossings_in, flips_in, changes_in};
ghost use Rattle.pruned_cnf.specs.Queries.{clauses_in, formula_in};

mod chains;
mod changes;
mod crossings;
mod flips;
mod layers;
mod literals;
mod sides;

use crate::Query;
use crate::numbering::Numbering;
use chains::{Change, chain_of};
use changes::add_changes;
use crossings::add_crossings;
use flips::add_flips;
use layers::add_layer;
use literals::lists_of;
use rup_check::Cnf;
use std::alloc::{AllocError, Global};

// Adds what says that no two segments that cross are there after each of the rounds.
fn add_all_crossings(alloc: Global, cnf: &mut Cnf, numbering: &Numbering) -> Result<(), AllocError>
    requires { Takes cnf.old (flat_map (crossings_in numbering.now) (range_with_len 0 (numbering.now.rounds + 1))) }
    ensures { OnOk result (cnf.new ≡ adding cnf.old (flat_map (crossings_in numbering.now) (range_with_len 0 (numbering.now.rounds + 1)))) }
{
    let _lists = lists_of(numbering);
    for t in 0..numbering.query().rounds() + 1 {
        add_crossings(alloc, cnf, numbering, t)?;
    }
    Ok(())
}

// Adds what the flips of each round ask.
fn add_all_flips(alloc: Global, cnf: &mut Cnf, numbering: &Numbering) -> Result<(), AllocError>
    requires { Takes cnf.old (flat_map (flips_in numbering.now) (range_with_len 0 numbering.now.rounds)) }
    ensures { OnOk result (cnf.new ≡ adding cnf.old (flat_map (flips_in numbering.now) (range_with_len 0 numbering.now.rounds))) }
{
    for t in 0..numbering.query().rounds() {
        add_flips(alloc, cnf, numbering, t)?;
    }
    Ok(())
}

// Adds what says that nothing changes in each round but by flips.
fn add_all_changes(alloc: Global, cnf: &mut Cnf, numbering: &Numbering) -> Result<(), AllocError>
    requires { Takes cnf.old (flat_map (changes_in numbering.now) (range_with_len 0 numbering.now.rounds)) }
    ensures { OnOk result (cnf.new ≡ adding cnf.old (flat_map (changes_in numbering.now) (range_with_len 0 numbering.now.rounds))) }
{
    let leaving = chain_of(alloc, numbering, Change::Leave)?;
    let coming = chain_of(alloc, numbering, Change::Come)?;
    for t in 0..numbering.query().rounds() {
        add_changes(alloc, cnf, numbering, &leaving, &coming, t)?;
    }
    Ok(())
}

/// The pruned formula of a query, where it has at most 400,000 clauses. Its time is near the number of the clauses and of the frame's pairs in all layers.
pub fn build(alloc: Global, query: &Query) -> Result<Cnf, AllocError>
    requires { length (clauses_in query.now) ≤ 400_000 }
    ensures { IfOk result (λ cnf. cnf ≡ formula_in query.now) }
{
    let _lists = query.lists();
    let numbering = Numbering::of(alloc, query)?;
    let mut cnf = Cnf::make(alloc, numbering.variables());
    add_layer(alloc, &mut cnf, &numbering, 0, query.from())?;
    add_layer(alloc, &mut cnf, &numbering, query.rounds(), query.to())?;
    add_all_crossings(alloc, &mut cnf, &numbering)?;
    add_all_flips(alloc, &mut cnf, &numbering)?;
    add_all_changes(alloc, &mut cnf, &numbering)?;
    Ok(cnf)
}
