// The clauses that say what a flip asks.
ghost use Rattle.std.specs.Prelude.{◌≡◌, ◌<◌, length, IfOk, OnOk};
ghost use Rattle.formula_parts.specs.Building.{Takes, adding, pair_at};
ghost use Rattle.pruned_cnf.specs.Groups.{demands_in, flips_in, asked};

use crate::numbering::Numbering;
use crate::writing::literals::{lists_of, push_if_live};
use crate::writing::sides::push_sides;
use formula_parts::add_asked;
use rup_check::{Clause, Cnf, Lit};
use std::alloc::{AllocError, Global};

// What the flip with the number `n` asks of the segments before round `t` and after it, where they can be there.
fn demands(alloc: Global, numbering: &Numbering, t: u32, n: u32) -> Result<Clause, AllocError>
    requires round { t < numbering.now.rounds }
    requires within { n < length numbering.now.frame.flips }
    ensures { IfOk result (λ lits. lits ≡ demands_in numbering.now t (pair_at numbering.now.frame.flips n)) }
{
    let lists = lists_of(numbering);
    let g = lists.flip(n);
    let mut lits = Clause::make(alloc);
    push_if_live(&mut lits, numbering, t, g.0, true)?;
    push_if_live(&mut lits, numbering, t + 1, g.0, false)?;
    push_if_live(&mut lits, numbering, t, g.1, false)?;
    push_if_live(&mut lits, numbering, t + 1, g.1, true)?;
    push_sides(
        &mut lits,
        numbering,
        t,
        lists.segment(g.0),
        lists.segment(g.1),
    )?;
    Ok(lits)
}

// Adds what the flip with the number `n` asks where it is made in round `t`, if it can be made.
fn add_flip(
    alloc: Global,
    cnf: &mut Cnf,
    numbering: &Numbering,
    t: u32,
    n: u32,
) -> Result<(), AllocError>
    requires round { t < numbering.now.rounds }
    requires within { n < length numbering.now.frame.flips }
    requires takes { Takes cnf.old (asked numbering.now t (pair_at numbering.now.frame.flips n)) }
    ensures { OnOk result (cnf.new ≡ adding cnf.old (asked numbering.now t (pair_at numbering.now.frame.flips n))) }
{
    match numbering.flip(t, n) {
        Some(var) => {
            let lits = demands(alloc, numbering, t, n)?;
            let unmade = Lit { var, on: false };
            add_asked(alloc, cnf, unmade, &lits)
        },
        None => Ok(()),
    }
}

// Adds what each flip asks where it is made in round `t`.
pub(crate) fn add_flips(
    alloc: Global,
    cnf: &mut Cnf,
    numbering: &Numbering,
    t: u32,
) -> Result<(), AllocError>
    requires round { t < numbering.now.rounds }
    requires takes { Takes cnf.old (flips_in numbering.now t) }
    ensures { OnOk result (cnf.new ≡ adding cnf.old (flips_in numbering.now t)) }
{
    for n in 0..lists_of(numbering).flips() {
        add_flip(alloc, cnf, numbering, t, n)?;
    }
    Ok(())
}
