// Rounds, one after the other.
ghost use Rattle.std.specs.Prelude.{◌≡◌, IfOk, IfErr};
ghost use Rattle.replay.specs.Independent.{AreRoundsOf};
ghost use Rattle.replay.specs.Faults.{IsRefusal};

use crate::ReplayFault;
use crate::round::make_round;
use edge_table::Rounds;
use flip_mesh::Mesh;
use std::alloc::Global;
use tri_check::Triang;

/// Where rounds of flips lead from a triangulation, or their first fault. An edge that a round names twice is a fault.
/// With m edges and f flips it takes O((m + f) log m) steps, a look-up of an edge in a hash set counted as one.
pub fn replay(alloc: Global, start: &Triang, rounds: &Rounds) -> Result<Triang, ReplayFault>
    ensures points { IfOk result (λ end. end.points ≡ start.now.points) }
    ensures ok { IfOk result (λ end. AreRoundsOf start.now.points start.now.edges rounds.now end.edges) }
    ensures err { IfErr result (IsRefusal start.now.points start.now.edges rounds.now) }
{
    let mut mesh = Mesh::of(alloc, start)?;
    for r in 0..rounds.len() {
        make_round(alloc, &mut mesh, r as u64, rounds.at(r))?;
    }
    Ok(mesh.to_triang()?)
}
