// The rounds that a model tells.
ghost use Rattle.std.specs.Prelude.{◌≡◌, ◌<◌, ◌≤◌, IsTrue, ◌↔◌, true, length, IfOk};
ghost use Rattle.log_law.specs.Clauses.{listed};
ghost use Rattle.formula_law.specs.Formula.{made, round_of, rounds_of};
ghost use Rattle.formula_parts.specs.Building.{IsFrameOfSome, pair_at};

use crate::numbers::place;
use edge_table::{EdgeSeq, Rounds};
use formula_parts::Lists;
use rup_check::Truth;
use std::alloc::{AllocError, Global};

// Whether the flip with the number `n` is made in round `t` of `k`.
fn is_made(lists: &Lists, k: u32, t: u32, n: u32, truth: &Truth) -> bool
    requires frame { IsFrameOfSome lists.now }
    requires rounds { k ≤ 400_000 }
    requires round { t < k }
    requires within { n < length lists.now.flips }
    ensures { result ≡ listed truth.now (made lists.now k t (pair_at lists.now.flips n)) }
{
    let i = place(lists, k, t, n) as usize;
    if i >= truth.len() {
        return false;
    }
    *truth.at(i)
}

// The edges that flip in round `t` of `k`.
fn round(alloc: Global, lists: &Lists, k: u32, t: u32, truth: &Truth) -> Result<EdgeSeq, AllocError>
    requires frame { IsFrameOfSome lists.now }
    requires rounds { k ≤ 400_000 }
    requires round { t < k }
    ensures { IfOk result (λ edges. edges ≡ round_of lists.now (listed truth.now) k t) }
{
    let mut edges = EdgeSeq::make(alloc);
    for n in 0..lists.flips() {
        if is_made(lists, k, t, n, truth) {
            let g = lists.flip(n);
            edges.push(lists.segment(g.0))?;
        }
    }
    Ok(edges)
}

// The edges that flip in each of `k` rounds.
pub(crate) fn read(
    alloc: Global,
    lists: &Lists,
    k: u32,
    truth: &Truth,
) -> Result<Rounds, AllocError>
    requires frame { IsFrameOfSome lists.now }
    requires rounds { k ≤ 400_000 }
    ensures { IfOk result (λ rounds. rounds ≡ rounds_of lists.now (listed truth.now) k) }
{
    let mut rounds = Rounds::make(alloc);
    for t in 0..k {
        let edges = round(alloc, lists, k, t, truth)?;
        rounds.push(edges)?;
    }
    Ok(rounds)
}
