// The flips that change one segment, one after the other.
ghost use Rattle.std.specs.Prelude.{◌≡◌, ◌<◌, None, length, replicate, IfOk};
ghost use Rattle.formula_parts.specs.Building.{pair_at};
ghost use Rattle.formula_parts.specs.Lists.{edge_at};
ghost use Rattle.pruned_cnf.specs.Chains.{IsChain};
ghost use Rattle.pruned_cnf.specs.Groups.{changed as changed_by};

use crate::numbering::Numbering;
use crate::writing::literals::lists_of;
use formula_parts::Lists;
use std::alloc::{AllocError, Global};

// A segment leaves by a flip from it, and comes by a flip to it.
#[derive(Clone, Copy)]
pub enum Change {
    Leave,
    Come,
}

// For each segment the first flip by which it changes so, and for each flip the next that changes the same segment, in the order of the flips.
#[derive(Drop)]
pub struct Chain {
    pub change: Change,
    pub firsts: Vec<Option<u32>>,
    pub nexts: Vec<Option<u32>>,
}

// The number of the segment that the flip with the number `n` changes so.
fn changed(lists: &Lists, change: Change, n: u32) -> u32
    requires { n < length lists.now.flips }
    ensures within { result < length lists.now.segments }
    ensures changed { edge_at lists.now.segments result ≡ changed_by change (pair_at lists.now.flips n) }
{
    let g = lists.flip(n);
    match change {
        Change::Leave => g.0,
        Change::Come => g.1,
    }
}

fn no_flips(alloc: Global, count: u32) -> Result<Vec<Option<u32>>, AllocError>
    ensures { IfOk result (λ made. made.items ≡ replicate count None) }
{
    vec![in alloc; None; count as usize]
}

// The chains of all flips, in time linear in their number. They are made from the last flip to the first.
pub(crate) fn chain_of(
    alloc: Global,
    numbering: &Numbering,
    change: Change,
) -> Result<Chain, AllocError>
    ensures { IfOk result (IsChain numbering.now.frame change) }
{
    let lists = lists_of(numbering);
    let mut firsts = no_flips(alloc, lists.segments())?;
    let mut nexts = no_flips(alloc, lists.flips())?;
    for n in (0..lists.flips()).rev() {
        let e = changed(lists, change, n) as usize;
        nexts[n as usize] = firsts[e];
        firsts[e] = Some(n);
    }
    Ok(Chain {
        change,
        firsts,
        nexts,
    })
}
