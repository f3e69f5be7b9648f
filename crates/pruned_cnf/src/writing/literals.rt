// The literals of places and flips that are live.
ghost use Rattle.std.specs.Prelude.{◌≡◌, ◌<◌, ◌≤◌, ◌++◌, length, OnOk};
ghost use Rattle.formula_parts.specs.Building.{pair_at};
ghost use Rattle.formula_parts.specs.Lists.{edge_at};
ghost use Rattle.pruned_cnf.specs.Groups.{place_literal, flip_literal};
ghost use Rattle.pruned_cnf.specs.Queries.{IsQuery, live_in};

use crate::numbering::Numbering;
use formula_parts::Lists;
use rup_check::{Clause, Lit};
use std::alloc::AllocError;

// The lists of the frame whose segments and flips are numbered.
pub(crate) fn lists_of<'a>(numbering: &'a Numbering) -> &'a Lists
    ensures lists { result.now ≡ numbering.now.frame }
    ensures query { IsQuery numbering.now }
{
    numbering.query().lists()
}

// Whether the segment with the number `n` can be there after `t` rounds.
pub(crate) fn can_be_there(numbering: &Numbering, t: u32, n: u32) -> bool
    requires { n < length numbering.now.frame.segments }
    ensures { result ≡ live_in numbering.now t (edge_at numbering.now.frame.segments n) }
{
    numbering.query().is_live(t, n)
}

// Puts at the end whether the segment with the number `n` is there after `t` rounds, where it can be.
pub(crate) fn push_if_live(
    lits: &mut Clause,
    numbering: &Numbering,
    t: u32,
    n: u32,
    on: bool,
) -> Result<(), AllocError>
    requires layer { t ≤ numbering.now.rounds }
    requires within { n < length numbering.now.frame.segments }
    ensures { OnOk result (lits.new ≡ lits.old ++ place_literal numbering.now t (edge_at numbering.now.frame.segments n) on) }
{
    match numbering.place(t, n) {
        Some(var) => lits.push(Lit { var, on }),
        None => Ok(()),
    }
}

// Puts at the end that the flip with the number `n` is made in round `t`, where it can be.
pub(crate) fn push_if_made(
    lits: &mut Clause,
    numbering: &Numbering,
    t: u32,
    n: u32,
) -> Result<(), AllocError>
    requires round { t < numbering.now.rounds }
    requires within { n < length numbering.now.frame.flips }
    ensures { OnOk result (lits.new ≡ lits.old ++ flip_literal numbering.now t (pair_at numbering.now.frame.flips n)) }
{
    match numbering.flip(t, n) {
        Some(var) => lits.push(Lit { var, on: true }),
        None => Ok(()),
    }
}
