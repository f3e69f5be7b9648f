// The run from a triangulation: flips of the least bad edge, until none is bad.
ghost use Rattle.std.specs.Prelude.{◌≡◌, MatchOption, IfOk, OnOk};
ghost use Rattle.tri_theory.specs.Flips.{IsFlip};
ghost use Rattle.lawson_law.specs.LawsonRuns.{IsBad, IsLawsonRunLonger};
ghost use Rattle.lawson_start.specs.Steps.{AreBad, Stands, Follows, IsRunOf};

use crate::bad::{bad_edges, retest, retest_sides};
use crate::queue::EdgeQueue;
use edge_table::Edge;
use flip_mesh::Mesh;
use round_pack::Track;
use std::alloc::{AllocError, Global};
use tri_check::Triang;

// Flips a bad edge, and answers its image. Beside the edge and its image only the sides of the quadrilateral may turn bad by that, or good.
pub(crate) fn flip(mesh: &mut Mesh, bad: &mut EdgeQueue, e: Edge) -> Result<Edge, AllocError>
    requires set { AreBad mesh.old.points mesh.old.edges bad.old }
    requires here { IsBad mesh.old.points mesh.old.edges e }
    ensures points { mesh.new.points ≡ mesh.old.points }
    ensures edges { IfOk result (λ f. IsFlip mesh.old.points mesh.old.edges e f mesh.new.edges) }
    ensures set { OnOk result (AreBad mesh.new.points mesh.new.edges bad.new) }
{
    let _ = mesh.points();
    match mesh.quad(e) {
        Some(q) => {
            let image = mesh.flip(e);
            bad.remove(e);
            retest(mesh, bad, image)?;
            retest_sides(mesh, bad, q)?;
            Ok(image)
        }
        None => unreachable!(),
    }
}

// The same in a track that ends in the triangulation.
fn step(track: &mut Track, mesh: &mut Mesh, bad: &mut EdgeQueue, e: Edge) -> Result<(), AllocError>
    requires stands { Stands track.old mesh.old bad.old }
    requires here { IsBad mesh.old.points mesh.old.edges e }
    ensures stands { OnOk result (Stands track.new mesh.new bad.new) }
    ensures follows { OnOk result (Follows track.old track.new e) }
{
    let _ = mesh.points();
    track.reserve(1)?;
    track.append(e);
    flip(mesh, bad, e)?;
    Ok(())
}

// The track of the run, or None where it has more flips than the budget.
pub(crate) fn run_within(
    alloc: Global,
    input: &Triang,
    budget: u64,
) -> Result<Option<Track>, AllocError>
    ensures { IfOk result (λ run. MatchOption run (IsLawsonRunLonger input.now.points input.now.edges budget) (IsRunOf input.now.points budget input.now.edges)) }
{
    let _ = input.len();
    let mut track = Track::at(alloc, input)?;
    let mut mesh = Mesh::of(alloc, input)?;
    let mut bad = bad_edges(alloc, &mesh, input)?;
    let mut left = budget;
    while let Some(e) = bad.first() {
        if left == 0 {
            return Ok(None);
        }
        left -= 1;
        step(&mut track, &mut mesh, &mut bad, e)?;
    }
    Ok(Some(track))
}
