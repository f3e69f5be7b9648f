// Whether following edges lowers the total, found without a copy of the plan.
ghost use Rattle.std.specs.Prelude.{◌≡◌, ◌≤◌, ◌*◌, ◌↔◌, false, All, Contains, IsTrue, IfOk, length, map, nat_lt};
ghost use Rattle.std.specs.List.{AllZip};
ghost use Rattle.edge_table.specs.declared.edge.Edge.{Edge};
ghost use Rattle.tri_theory.specs.Rounds.{weighted_sum};
ghost use Rattle.flip_list_law.specs.FlipLists.{round_count};
ghost use Rattle.plan_law.specs.Plans.{lowers};
ghost use Rattle.plan_core.specs.States.{IsHeld, plan_of};
ghost use Rattle.plan_core.specs.Trials.{all_flip, rounds_then, CanFollow};

use crate::follow::follow_in;
use crate::totals::sum_rounds;
use edge_table::{Edge, EdgeSeq};
use flip_mesh::Mesh;
use item_list::ItemList;
use round_pack::{Track, TrackList};
use std::alloc::{AllocError, Global};
use tri_check::Instance;

// Whether an edge is among others.
fn is_among(edges: &EdgeSeq, e: Edge) -> bool
    ensures { IsTrue result ↔ Contains edges.now e }
{
    edges.as_slice().contains(&e)
}

// Whether all of these images are among the edges. Where the two are one list it takes linear time.
fn are_among(images: &EdgeSeq, edges: &EdgeSeq) -> bool
    ensures { result ≡ false → (e : Edge) × Contains images.now e × ¬ Contains edges.now e }
{
    for i in 0..images.len() {
        let e = *images.at(i);
        let is_at_place = i < edges.len() && *edges.at(i) == e;
        if !is_at_place && !is_among(edges, e) {
            return false;
        }
    }
    true
}

// Flips edges in turn, up to the first that doesn't flip. Answers whether there is none such.
fn flip_in_turn(mesh: &mut Mesh, edges: &EdgeSeq) -> bool
    ensures { result ≡ all_flip mesh.old.points mesh.old.edges edges.now }
{
    let _ = mesh.points();
    for e in edges.as_slice() {
        if mesh.quad(*e).is_none() {
            return false;
        }
        mesh.flip(*e);
    }
    true
}

// Follows edges that flip in turn.
fn follow_on(track: &mut Track, edges: &EdgeSeq)
    requires follows { CanFollow edges.now track.old }
    requires spare { length edges.now ≤ track.old.spare }
    ensures { round_count track.new.flips ≡ rounds_then edges.now track.old }
{
    for e in edges.as_slice() {
        follow_in(track, *e);
    }
}

// The rounds of a track once it has followed edges, by a copy of it.
fn rounds_on_copy(track: &Track, edges: &EdgeSeq) -> Result<u64, AllocError>
    requires { CanFollow edges.now track.now }
    ensures { IfOk result (λ n. n ≡ rounds_then edges.now track.now) }
{
    let mut copy = track.copy()?;
    copy.reserve(edges.len())?;
    follow_on(&mut copy, edges);
    Ok(copy.rounds())
}

// At least so many rounds: those that it has, where an image of the last round isn't among the edges. That flip is never taken out.
fn least_rounds(track: &Track, edges: &EdgeSeq) -> Result<u64, AllocError>
    requires { CanFollow edges.now track.now }
    ensures { IfOk result (λ n. n ≤ rounds_then edges.now track.now) }
{
    let images = track.last_images()?;
    if !are_among(&images, edges) {
        return Ok(track.rounds());
    }
    rounds_on_copy(track, edges)
}

// The same of each track.
fn least_of_all(
    alloc: Global,
    tracks: &TrackList,
    edges: &EdgeSeq,
) -> Result<ItemList<u64>, AllocError>
    requires { All (CanFollow edges.now) tracks.now }
    ensures { IfOk result (λ least. AllZip (λ track n. n ≤ rounds_then edges.now track) tracks.now least) }
{
    let mut least = ItemList::make(alloc);
    for i in 0..tracks.len() {
        let rounds = least_rounds(tracks.at(i), edges)?;
        least.push(rounds)?;
    }
    Ok(least)
}

// Numbers of rounds added up as a total counts them.
fn sum_of(inst: &Instance, rounds: &ItemList<u64>) -> u128
    requires { length rounds.now ≡ length inst.now.inputs }
    ensures sum { result ≡ weighted_sum inst.now.weights rounds.now }
    ensures small { result ≤ length inst.now.inputs * (16 * 18446744073709551615) }
{
    let mut sum: u128 = 0;
    for t in 0..inst.inputs() {
        sum += inst.weighed(t, *rounds.at(t as usize));
    }
    sum
}

// Whether the rounds of all tracks, once each has followed the edges, are below a total. It stops at the track that shows that they aren't.
fn are_below(
    inst: &Instance,
    tracks: &TrackList,
    edges: &EdgeSeq,
    least: &ItemList<u64>,
    total: u128,
) -> Result<bool, AllocError>
    requires number { length tracks.now ≡ length inst.now.inputs }
    requires follows { All (CanFollow edges.now) tracks.now }
    requires least { AllZip (λ track n. n ≤ rounds_then edges.now track) tracks.now least.now }
    ensures { IfOk result (λ b. b ≡ nat_lt (weighted_sum inst.now.weights (map (rounds_then edges.now) tracks.now)) total) }
{
    let least_sum = sum_of(inst, least);
    let mut sum: u128 = 0;
    let mut passed: u128 = 0;
    for t in 0..inst.inputs() {
        if total <= sum + (least_sum - passed) {
            return Ok(false);
        }
        let track = tracks.at(t as usize);
        let bound = *least.at(t as usize);
        let rounds = rounds_on_copy(track, edges)?;
        sum += inst.weighed(t, rounds);
        passed += inst.weighed(t, bound);
    }
    Ok(sum < total)
}

// Whether edges can be followed one after the other, and the total is lower then.
pub(crate) fn would_lower(
    alloc: Global,
    inst: &Instance,
    centre: &Mesh,
    tracks: &TrackList,
    edges: &EdgeSeq,
) -> Result<bool, AllocError>
    requires { IsHeld inst.now centre.now tracks.now }
    ensures { IfOk result (λ b. b ≡ lowers inst.now.points (plan_of inst.now centre.now.edges tracks.now) edges.now) }
{
    let _ = centre.points();
    let mut end = centre.copy()?;
    if !flip_in_turn(&mut end, edges) {
        return Ok(false);
    }
    let least = least_of_all(alloc, tracks, edges)?;
    are_below(inst, tracks, edges, &least, sum_rounds(inst, tracks))
}
