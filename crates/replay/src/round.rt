// One round: its edges tried in list order, and then flipped.
ghost use Rattle.std.specs.Prelude.{◌≡◌, ◌↔◌, ◌++◌, ◌∷◌, [], IsTrue, OnOk, OnErr, IfErr, Contains};
ghost use Rattle.tri_check.specs.Layouts.{IsTriangulated};
ghost use Rattle.tri_theory.specs.Rounds.{IsRound};
ghost use Rattle.replay.specs.Independent.{HasNoRepeats, AreIndependent};
ghost use Rattle.replay.specs.Faults.{IsFaultAfter, round_of, edge_at_fault};
ghost use Rattle.replay.specs.Steps.{IsEdgeTaken, IsRoundRefusal};

use crate::sides::first_side;
use crate::{ReplayFault, RoundFault};
use edge_table::{Edge, EdgeSeq};
use flip_mesh::Mesh;
use indexmap::IndexSet;
use std::alloc::{AllocError, Global};

// Whether an edge is taken.
fn is_taken(taken: &IndexSet<Edge>, e: Edge) -> bool
    ensures { IsTrue result ↔ Contains taken.now.keys e }
{
    taken.contains(&e)
}

// Takes an edge.
fn add_taken(taken: &mut IndexSet<Edge>, e: Edge) -> Result<(), AllocError>
    requires { ¬ Contains taken.old.keys e }
    ensures { OnOk result (taken.new.keys ≡ taken.old.keys ++ e ∷ []) }
{
    taken.insert(e)?;
    Ok(())
}

// Tries the next edge of a round, after those that are taken.
fn try_edge(mesh: &Mesh, r: u64, taken: &IndexSet<Edge>, e: Edge) -> Result<(), RoundFault>
    requires triangulated { IsTriangulated mesh.now.points mesh.now.edges }
    ensures ok { OnOk result (IsEdgeTaken mesh.now.points mesh.now.edges taken.now.keys e) }
    ensures fault { IfErr result (IsFaultAfter mesh.now.points mesh.now.edges taken.now.keys) }
    ensures round { IfErr result (λ fault. round_of fault ≡ r) }
    ensures edge { IfErr result (λ fault. edge_at_fault fault ≡ e) }
{
    if !mesh.has(e) {
        return Err(RoundFault::NotEdge(r, e));
    }
    if is_taken(taken, e) {
        return Err(RoundFault::Twice(r, e));
    }
    match mesh.quad(e) {
        None => Err(RoundFault::NotConvex(r, e)),
        Some(q) => match first_side(taken, q) {
            Some(f) => Err(RoundFault::SharedTriangle(r, e, f)),
            None => Ok(()),
        },
    }
}

// Tries the edges of a round in list order, all where the mesh stands before the round.
fn try_round(alloc: Global, mesh: &Mesh, r: u64, round: &EdgeSeq) -> Result<(), ReplayFault>
    requires { IsTriangulated mesh.now.points mesh.now.edges }
    ensures ok { OnOk result (AreIndependent mesh.now.points mesh.now.edges round.now) }
    ensures err { IfErr result (IsRoundRefusal mesh.now.points mesh.now.edges r round.now) }
{
    let mut taken = IndexSet::new(alloc);
    for e in round.as_slice() {
        try_edge(mesh, r, &taken, *e)?;
        add_taken(&mut taken, *e)?;
    }
    Ok(())
}

// Flips the edges of a round.
fn flip_round(mesh: &mut Mesh, round: &EdgeSeq)
    requires triangulated { IsTriangulated mesh.old.points mesh.old.edges }
    requires independent { AreIndependent mesh.old.points mesh.old.edges round.now }
    ensures points { mesh.new.points ≡ mesh.old.points }
    ensures round { IsRound mesh.old.points mesh.old.edges round.now mesh.new.edges }
{
    for e in round.as_slice() {
        mesh.flip(*e);
    }
}

// Leads a mesh on by one round, or leaves it as it is.
pub(crate) fn make_round(
    alloc: Global,
    mesh: &mut Mesh,
    r: u64,
    round: &EdgeSeq,
) -> Result<(), ReplayFault>
    ensures points { mesh.new.points ≡ mesh.old.points }
    ensures ok { OnOk result (IsRound mesh.old.points mesh.old.edges round.now mesh.new.edges) }
    ensures distinct { OnOk result (HasNoRepeats round.now) }
    ensures err { IfErr result (IsRoundRefusal mesh.old.points mesh.old.edges r round.now) }
    ensures kept { OnErr result (mesh.new ≡ mesh.old) }
{
    let _ = mesh.points();
    match try_round(alloc, mesh, r, round) {
        Ok(()) => {
            flip_round(mesh, round);
            Ok(())
        }
        Err(fault) => Err(fault),
    }
}
