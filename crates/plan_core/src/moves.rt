// The moves of a plan.
ghost use Rattle.std.specs.Prelude.{◌≡◌, [], ◌∷◌, ◌++◌, map, IfOk, OnOk};
ghost use Rattle.plan_law.specs.Plans.{last_moves};
ghost use Rattle.plan_core.specs.HeldPlans.{lists_of};

use crate::MoveList;
use edge_table::{Edge, EdgeSeq};
use round_pack::{Track, TrackList};
use std::alloc::{AllocError, Global};

// The move of one edge.
fn single(alloc: Global, e: Edge) -> Result<EdgeSeq, AllocError>
    ensures { IfOk result (λ s. s ≡ e ∷ []) }
{
    let mut edges = EdgeSeq::make(alloc);
    edges.push(e)?;
    Ok(edges)
}

// Adds each edge as a move.
pub(crate) fn add_singles(
    alloc: Global,
    moves: &mut MoveList,
    edges: &EdgeSeq,
) -> Result<(), AllocError>
    ensures { OnOk result (moves.new ≡ moves.old ++ map (λ e. e ∷ []) edges.now) }
{
    for e in edges.as_slice() {
        moves.push(single(alloc, *e)?)?;
    }
    Ok(())
}

// Adds the images of the last round, where there is a round.
fn add_last(moves: &mut MoveList, track: &Track) -> Result<(), AllocError>
    ensures { OnOk result (moves.new ≡ moves.old ++ last_moves (track.now.flips ∷ [])) }
{
    if track.rounds() > 0 {
        moves.push(track.last_images()?)?;
    }
    Ok(())
}

// The same for each track.
pub(crate) fn add_lasts(moves: &mut MoveList, tracks: &TrackList) -> Result<(), AllocError>
    ensures { OnOk result (moves.new ≡ moves.old ++ last_moves (lists_of tracks.now)) }
{
    for i in 0..tracks.len() {
        add_last(moves, tracks.at(i))?;
    }
    Ok(())
}
