// The track of rounds that lead from a triangulation to a centre.
ghost use Rattle.std.specs.Prelude.{◌≡◌, ◌<◌, ◌≤◌, ◌++◌, Contains, Some, List, length, slice_set, IfNone, IfSome, IfOk, IfErr, OnOk};
ghost use Rattle.tri_check.specs.Layouts.{IsTriangulated};
ghost use Rattle.flip_list_law.specs.declared.Flip.{Flip};
ghost use Rattle.flip_list_law.specs.FlipLists.{in_turn};
ghost use Rattle.replay.specs.Independent.{AreRoundsOf};
ghost use Rattle.replay.specs.Faults.{IsFirstWith};
ghost use Rattle.plan_law.specs.Images.{flips_in_turn};
ghost use Rattle.plan_core.specs.Steps.{IsFlippedOn, IsTrackOf};
ghost use Rattle.plan_core.specs.SwapFaults.{IsLeadFault, IsRoundsFault};

use crate::SwapFault;
use edge_table::{Edge, EdgeSeq, Rounds};
use flip_mesh::Mesh;
use replay::{ReplayFault, replay};
use round_pack::{Track, TrackList};
use std::alloc::{AllocError, Global};
use tri_check::Triang;

// Where the rounds lead.
fn end_of(alloc: Global, input: &Triang, rounds: &Rounds) -> Result<Triang, SwapFault>
    ensures points { IfOk result (λ end. end.points ≡ input.now.points) }
    ensures ok { IfOk result (λ end. AreRoundsOf input.now.points input.now.edges rounds.now end.edges) }
    ensures err { IfErr result (IsRoundsFault input.now.points input.now.edges rounds.now) }
{
    match replay(alloc, input, rounds) {
        Ok(end) => Ok(end),
        Err(ReplayFault::Round(fault)) => Err(SwapFault::Round(fault)),
        Err(ReplayFault::OutOfMemory) => Err(SwapFault::OutOfMemory),
    }
}

// The first edge of an end that the centre doesn't have.
fn first_outside(centre: &Mesh, end: &Triang) -> Option<Edge>
    ensures none { IfNone result ((e : Edge) → Contains end.now.edges e → Contains centre.now.edges e) }
    ensures some { IfSome result (IsFirstWith (λ e. ¬ Contains centre.now.edges e) end.now.edges) }
{
    for i in 0..end.len() {
        let e = end.edge_at(i);
        if !centre.has(e) {
            return Some(e);
        }
    }
    None
}

// Whether the rounds lead to the centre.
pub(crate) fn lead_to(
    alloc: Global,
    centre: &Mesh,
    input: &Triang,
    rounds: &Rounds,
) -> Result<(), SwapFault>
    requires { centre.now.points ≡ input.now.points }
    ensures ok { OnOk result (AreRoundsOf input.now.points input.now.edges rounds.now centre.now.edges) }
    ensures err { IfErr result (IsLeadFault input.now.points input.now.edges rounds.now centre.now.edges) }
{
    let _ = centre.points();
    let end = end_of(alloc, input, rounds)?;
    let _ = end.len();
    match first_outside(centre, &end) {
        Some(e) => Err(SwapFault::OtherEnd(e)),
        None => Ok(()),
    }
}

// Adds the edges of a round.
fn add_round(edges: &mut EdgeSeq, round: &EdgeSeq) -> Result<(), AllocError>
    ensures { OnOk result (edges.new ≡ edges.old ++ round.now) }
{
    for e in round.as_slice() {
        edges.push(*e)?;
    }
    Ok(())
}

// The edges of the rounds, one round after the other.
fn edges_in_turn(alloc: Global, rounds: &Rounds) -> Result<EdgeSeq, AllocError>
    ensures { IfOk result (λ edges. edges ≡ in_turn rounds.now) }
{
    let mut edges = EdgeSeq::make(alloc);
    for i in 0..rounds.len() {
        add_round(&mut edges, rounds.at(i))?;
    }
    Ok(edges)
}

// Appends the flips of edges that flip in turn.
fn append_all(track: &mut Track, edges: &EdgeSeq)
    requires triangulated { IsTriangulated track.old.points track.old.end }
    requires found { (others : List Flip) × (flips_in_turn track.old.points track.old.end edges.now ≡ Some others) }
    requires spare { length edges.now ≤ track.old.spare }
    ensures { IsFlippedOn edges.now track.old track.new }
{
    for e in edges.as_slice() {
        track.append(*e);
    }
}

// The track of the flips of rounds.
pub(crate) fn track_of(alloc: Global, input: &Triang, rounds: &Rounds) -> Result<Track, AllocError>
    requires { (flips : List Flip) × (flips_in_turn input.now.points input.now.edges (in_turn rounds.now) ≡ Some flips) }
    ensures { IfOk result (IsTrackOf input.now.points input.now.edges (in_turn rounds.now)) }
{
    let _ = input.len();
    let edges = edges_in_turn(alloc, rounds)?;
    let mut track = Track::at(alloc, input)?;
    track.reserve(edges.len())?;
    append_all(&mut track, &edges);
    Ok(track)
}

// Puts a track in the place of another.
pub(crate) fn put(tracks: &mut TrackList, t: usize, track: Track)
    requires { t < length tracks.old }
    ensures { tracks.new ≡ slice_set tracks.old t track }
{
    *tracks.at_mut(t) = track;
}
