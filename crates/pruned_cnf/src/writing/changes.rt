// The clauses that say that nothing changes but by flips.
ghost use Rattle.std.specs.Prelude.{◌≡◌, ◌<◌, ◌++◌, length, IfOk, OnOk};
ghost use Rattle.formula_parts.specs.Building.{Takes, adding};
ghost use Rattle.formula_parts.specs.Lists.{edge_at};
ghost use Rattle.pruned_cnf.specs.declared.writing.chains.Change.TheVariants as kind;
ghost use Rattle.pruned_cnf.specs.Chains.{IsChain};
ghost use Rattle.pruned_cnf.specs.Groups.{changes_in, changing_flips, change_clause, change_of, comes as comes_by, layer_of as layer_by};

use crate::numbering::Numbering;
use crate::writing::chains::{Chain, Change};
use crate::writing::literals::{can_be_there, lists_of, push_if_live, push_if_made};
use rup_check::{Clause, Cnf};
use std::alloc::{AllocError, Global};

fn comes(change: Change) -> bool
    ensures { result ≡ comes_by change }
{
    match change {
        Change::Leave => false,
        Change::Come => true,
    }
}

// After how many rounds the segment is there that leaves in round `t`, or comes.
fn layer_of(t: u32, change: Change) -> u32
    requires { t < 0xffff_ffff }
    ensures { result ≡ layer_by t change }
{
    match change {
        Change::Leave => t,
        Change::Come => t + 1,
    }
}

// Puts at the end that a flip is made in round `t` that changes the segment with the number `e` so, for each that can be made.
fn push_flips(
    clause: &mut Clause,
    numbering: &Numbering,
    chain: &Chain,
    t: u32,
    e: u32,
) -> Result<(), AllocError>
    requires chain { IsChain numbering.now.frame chain.now.change chain.now }
    requires round { t < numbering.now.rounds }
    requires within { e < length numbering.now.frame.segments }
    ensures { OnOk result (clause.new ≡ clause.old ++ changing_flips numbering.now t chain.now.change (edge_at numbering.now.frame.segments e)) }
{
    let mut at = chain.firsts[e as usize];
    while let Some(n) = at {
        push_if_made(clause, numbering, t, n)?;
        at = chain.nexts[n as usize];
    }
    Ok(())
}

// That the segment with the number `e` doesn't change so in round `t`, or by a flip.
fn clause_of(
    alloc: Global,
    numbering: &Numbering,
    chain: &Chain,
    t: u32,
    e: u32,
) -> Result<Clause, AllocError>
    requires chain { IsChain numbering.now.frame chain.now.change chain.now }
    requires rounds { t < 400_000 }
    requires round { t < numbering.now.rounds }
    requires within { e < length numbering.now.frame.segments }
    ensures { IfOk result (λ clause. clause ≡ change_clause numbering.now t chain.now.change (edge_at numbering.now.frame.segments e)) }
{
    let comes = comes(chain.change);
    let mut clause = Clause::make(alloc);
    push_if_live(&mut clause, numbering, t, e, comes)?;
    push_if_live(&mut clause, numbering, t + 1, e, !comes)?;
    push_flips(&mut clause, numbering, chain, t, e)?;
    Ok(clause)
}

// Adds the clause of the segment with the number `e`, where it can be there to leave or to come.
fn add_change(
    alloc: Global,
    cnf: &mut Cnf,
    numbering: &Numbering,
    chain: &Chain,
    t: u32,
    e: u32,
) -> Result<(), AllocError>
    requires chain { IsChain numbering.now.frame chain.now.change chain.now }
    requires round { t < numbering.now.rounds }
    requires within { e < length numbering.now.frame.segments }
    requires takes { Takes cnf.old (change_of numbering.now t chain.now.change (edge_at numbering.now.frame.segments e)) }
    ensures { OnOk result (cnf.new ≡ adding cnf.old (change_of numbering.now t chain.now.change (edge_at numbering.now.frame.segments e))) }
{
    let _lists = lists_of(numbering);
    let layer = layer_of(t, chain.change);
    if can_be_there(numbering, layer, e) {
        let clause = clause_of(alloc, numbering, chain, t, e)?;
        cnf.add(clause)?;
    }
    Ok(())
}

// Adds what says that nothing changes in round `t` but by flips.
pub(crate) fn add_changes(
    alloc: Global,
    cnf: &mut Cnf,
    numbering: &Numbering,
    leaving: &Chain,
    coming: &Chain,
    t: u32,
) -> Result<(), AllocError>
    requires leaving { IsChain numbering.now.frame kind.Leave leaving.now }
    requires coming { IsChain numbering.now.frame kind.Come coming.now }
    requires round { t < numbering.now.rounds }
    requires takes { Takes cnf.old (changes_in numbering.now t) }
    ensures { OnOk result (cnf.new ≡ adding cnf.old (changes_in numbering.now t)) }
{
    for e in 0..lists_of(numbering).segments() {
        add_change(alloc, cnf, numbering, leaving, t, e)?;
        add_change(alloc, cnf, numbering, coming, t, e)?;
    }
    Ok(())
}
