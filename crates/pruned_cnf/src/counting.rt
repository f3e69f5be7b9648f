// The digits of the crossings of each segment with a triangulation.
ghost use Rattle.std.specs.Prelude.{◌≡◌, ◌<◌, ◌≤◌, ◌+◌, ◌&&◌, ℕ, cond, eqb, length, map, slice_index_or, IfOk};
ghost use Rattle.edge_table.specs.Edges.{is_member};
ghost use Rattle.crossing_law.specs.Digits.{digits};
ghost use Rattle.formula_law.specs.Frames.{IsFrame};
ghost use Rattle.pruned_cnf.specs.Crossed.{AreCounted, AreDigits};

use formula_parts::Lists;
use std::alloc::{AllocError, Global};
use tri_check::Triang;

// How many binary digits a number has, and of 0 none.
fn digits(n: u32) -> u32
    ensures count { result ≡ digits n }
    ensures few { result ≤ 32 }
{
    32 - n.leading_zeros()
}

// Whether each segment is a member, by its number.
fn members(alloc: Global, lists: &Lists, triang: &Triang) -> Result<Vec<bool>, AllocError>
    ensures { IfOk result (λ found. found.items ≡ map (is_member triang.now.edges) lists.now.segments) }
{
    let mut found = Vec::new(alloc);
    for n in 0..lists.segments() {
        found.push(triang.has(lists.segment(n)))?;
    }
    Ok(found)
}

// Counts one more at a place, where this holds.
fn count_if(counts: &mut [u32], n: u32, holds: bool)
    requires within { n < length counts.old }
    requires room { slice_index_or counts.old n 0 < 4_000_000_000 }
    ensures long { length counts.new ≡ length counts.old }
    ensures each { (k : ℕ) → slice_index_or counts.new k 0 ≡ slice_index_or counts.old k 0 + cond (eqb k n && holds) 1 0 }
{
    if holds {
        counts[n as usize] += 1;
    }
}

// Counts the pair with the number `m` for each of its two segments, where the other one is a member.
fn count_pair(lists: &Lists, triang: &Triang, members: &[bool], counts: &mut [u32], m: u32)
    requires frame { IsFrame triang.now.points lists.now }
    requires within { m < length lists.now.crossings }
    requires members { members.now ≡ map (is_member triang.now.edges) lists.now.segments }
    requires counted { AreCounted lists.now triang.now.edges m counts.old }
    ensures { AreCounted lists.now triang.now.edges (m + 1) counts.new }
{
    let _ = (lists.crossings(), triang.len());
    let (a, b) = lists.crossing(m);
    count_if(counts, a, members[b as usize]);
    count_if(counts, b, members[a as usize]);
}

// How many members cross each segment, by its number.
fn counts(alloc: Global, lists: &Lists, triang: &Triang) -> Result<Vec<u32>, AllocError>
    requires { IsFrame triang.now.points lists.now }
    ensures { IfOk result (λ counts. AreCounted lists.now triang.now.edges (length lists.now.crossings) counts.items) }
{
    let members = members(alloc, lists, triang)?;
    let mut counts = vec![in alloc; 0u32; lists.segments() as usize]?;
    for m in 0..lists.crossings() {
        count_pair(lists, triang, &members, &mut counts, m);
    }
    Ok(counts)
}

// The digits of the crossings of each segment, by its number.
pub(crate) fn crossing_digits(
    alloc: Global,
    lists: &Lists,
    triang: &Triang,
) -> Result<Vec<u32>, AllocError>
    requires { IsFrame triang.now.points lists.now }
    ensures { IfOk result (λ found. AreDigits triang.now.points triang.now.edges lists.now.segments found.items) }
{
    let _ = triang.len();
    let counts = counts(alloc, lists, triang)?;
    let mut found = Vec::new(alloc);
    for n in 0..counts.len() {
        found.push(digits(counts[n]))?;
    }
    Ok(found)
}
