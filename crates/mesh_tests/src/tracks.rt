// A square and a hexagon with ample memory.
ghost use Rattle.std.specs.Prelude.{IsTrue, IfOk, OnOk};
ghost use Rattle.tri_theory.specs.Flips.{Flips};

use crate::polygons::{HEXAGON, SQUARE, edge, expect_input, instance};
use edge_table::{Edge, Rounds};
use flip_mesh::Mesh;
use round_pack::*;
use std::alloc::{AllocError, Global};
use std::process::Abort;
use std::test::Fail;

// The track without flips at the only input of a polygon with these diagonals.
fn track_of(
    rt: &impl Abort,
    alloc: Global,
    corners: &[(i64, i64)],
    diagonals: &[(i64, i64)],
) -> Result<Track, Fail> {
    let inst = instance(alloc, corners, &[diagonals])?;
    assert!(rt; inst.inputs() == 1);
    expect_input(rt, &inst, 0);
    Ok(Track::at(alloc, inst.input(0))?)
}

fn square_track(rt: &impl Abort, alloc: Global) -> Result<Track, Fail> {
    track_of(rt, alloc, &SQUARE, &[(0, 2)])
}

fn hexagon_track(rt: &impl Abort, alloc: Global) -> Result<Track, Fail> {
    track_of(rt, alloc, &HEXAGON, &[(1, 3), (1, 4), (1, 5)])
}

// Whether an edge of the end flips.
fn flips(alloc: Global, track: &Track, e: Edge) -> Result<bool, AllocError>
    ensures { IfOk result (λ b. IsTrue b → Flips track.now.points track.now.end e) }
{
    let end = track.end()?;
    let mesh = Mesh::of(alloc, &end)?;
    Ok(mesh.quad(e).is_some())
}

// An edge of the end flips, or the test ends.
fn expect_flip(rt: &impl Abort, alloc: Global, track: &Track, e: Edge) -> Result<(), AllocError>
    ensures { OnOk result (Flips track.now.points track.now.end e) }
{
    let turns = flips(alloc, track, e)?;
    assert!(rt; turns);
    Ok(())
}

// The image of an edge whose flip is appended.
fn append(rt: &impl Abort, alloc: Global, track: &mut Track, e: Edge) -> Result<Edge, AllocError> {
    track.reserve(1)?;
    expect_flip(rt, alloc, track, e)?;
    Ok(track.append(e))
}

// Appends the flip of an edge that is to have this image.
fn append_to(
    rt: &impl Abort,
    alloc: Global,
    track: &mut Track,
    e: Edge,
    image: Edge,
) -> Result<(), AllocError> {
    let found = append(rt, alloc, track, e)?;
    assert!(rt; found == image);
    Ok(())
}

// What `cancel` answers for an edge that is to flip.
fn cancelled(
    rt: &impl Abort,
    alloc: Global,
    track: &mut Track,
    e: Edge,
) -> Result<bool, AllocError> {
    expect_flip(rt, alloc, track, e)?;
    Ok(track.cancel(e))
}

// What `rounds_after` answers for an edge that is to flip.
fn rounds_after(rt: &impl Abort, alloc: Global, track: &Track, e: Edge) -> Result<u64, AllocError> {
    expect_flip(rt, alloc, track, e)?;
    Ok(track.rounds_after(e))
}

fn edges_at_end(track: &Track) -> Result<usize, AllocError> {
    let end = track.end()?;
    Ok(end.len())
}

fn rounds_grouped(track: &Track) -> Result<usize, AllocError> {
    let rounds = track.grouped()?;
    Ok(rounds.len())
}

fn last_images(track: &Track) -> Result<usize, AllocError> {
    let images = track.last_images()?;
    Ok(images.len())
}

// Whether the end has the square's sides and this diagonal, and no more.
fn is_square_with(rt: &impl Abort, track: &Track, diagonal: Edge) -> Result<bool, AllocError> {
    let end = track.end()?;
    let low = end.has(edge(rt, 0, 1)) && end.has(edge(rt, 0, 3));
    let high = end.has(edge(rt, 1, 2)) && end.has(edge(rt, 2, 3));
    Ok(end.len() == 5 && low && high && end.has(diagonal))
}

// The square's track with its diagonal flipped.
fn turned_square(rt: &impl Abort, alloc: Global) -> Result<Track, Fail> {
    let mut track = square_track(rt, alloc)?;
    append_to(rt, alloc, &mut track, edge(rt, 0, 2), edge(rt, 1, 3))?;
    Ok(track)
}

// The fan turned.
fn turn_fan(rt: &impl Abort, alloc: Global, track: &mut Track) -> Result<(), AllocError> {
    append_to(rt, alloc, track, edge(rt, 1, 5), edge(rt, 0, 4))?;
    append_to(rt, alloc, track, edge(rt, 1, 4), edge(rt, 0, 3))?;
    append_to(rt, alloc, track, edge(rt, 1, 3), edge(rt, 0, 2))
}

// The numbers of the rounds, of the grouped rounds, and of the edges at the end, with room for a flip.
fn sizes(track: &mut Track) -> Result<(u64, usize, usize), AllocError> {
    track.reserve(1)?;
    let grouped = rounds_grouped(track)?;
    let edges = edges_at_end(track)?;
    Ok((track.rounds(), grouped, edges))
}

#[test]
fn a_track_begins_without_flips(rt: HostRuntime) -> Result<(), Fail> {
    let mut track = square_track(&rt, rt.alloc())?;
    assert!(rt; sizes(&mut track)? == (0, 0, 5));
    Ok(())
}

// The number of tracks in a copy of a list of one copied track.
fn copied(alloc: Global, track: &Track) -> Result<usize, AllocError> {
    let mut list = TrackList::make(alloc);
    list.push(track.copy()?)?;
    let copy = list.copy()?;
    Ok(copy.len())
}

#[test]
fn tracks_are_copied(rt: HostRuntime) -> Result<(), Fail> {
    let track = square_track(&rt, rt.alloc())?;
    assert!(rt; last_images(&track)? == 0);
    assert!(rt; copied(rt.alloc(), &track)? == 1);
    Ok(())
}

#[test]
fn a_first_flip_would_make_a_round(rt: HostRuntime) -> Result<(), Fail> {
    let track = square_track(&rt, rt.alloc())?;
    assert!(rt; rounds_after(&rt, rt.alloc(), &track, edge(&rt, 0, 2))? == 1);
    Ok(())
}

#[test]
fn a_flip_is_appended(rt: HostRuntime) -> Result<(), Fail> {
    let track = turned_square(&rt, rt.alloc())?;
    assert!(rt; track.rounds() == 1);
    assert!(rt; rounds_after(&rt, rt.alloc(), &track, edge(&rt, 1, 3))? == 0);
    Ok(())
}

#[test]
fn a_flip_is_cancelled(rt: HostRuntime) -> Result<(), Fail> {
    let mut track = turned_square(&rt, rt.alloc())?;
    assert!(rt; cancelled(&rt, rt.alloc(), &mut track, edge(&rt, 1, 3))?);
    assert!(rt; track.rounds() == 0);
    assert!(rt; is_square_with(&rt, &track, edge(&rt, 0, 2))?);
    Ok(())
}

// Whether there are so many rounds, of one edge each.
fn are_single(rounds: &Rounds, count: usize) -> bool {
    for i in 0..rounds.len() {
        if rounds.at(i).len() != 1 {
            return false;
        }
    }
    rounds.len() == count
}

// Whether the turned fan has so many rounds, of one flip each.
fn turns_singly(
    rt: &impl Abort,
    alloc: Global,
    track: &mut Track,
    count: usize,
) -> Result<bool, AllocError> {
    turn_fan(rt, alloc, track)?;
    let rounds = track.grouped()?;
    Ok(are_single(&rounds, count))
}

#[test]
fn flips_that_share_triangles_follow_each_other(rt: HostRuntime) -> Result<(), Fail> {
    let mut track = hexagon_track(&rt, rt.alloc())?;
    assert!(rt; turns_singly(&rt, rt.alloc(), &mut track, 3)?);
    Ok(())
}
