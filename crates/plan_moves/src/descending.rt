// Descents: rounds from an input towards the centre, each of which lowers the number of crossings with it.
ghost use Rattle.std.specs.Prelude.{◌≡◌, ◌<◌, length, IfOk, OnOk};
ghost use Rattle.tri_check.specs.Layouts.{IsTriangulated};
ghost use Rattle.plan_law.specs.Improvers.{descended, descent, weight_of};
ghost use Rattle.plan_moves.specs.Answers.{descent_answer};
ghost use Rattle.plan_moves.specs.Rounds.{HasEachLower, Descends, judged_as, run};

use crate::greedy::{flip_round, greedy_round, neighbours, set_of};
use edge_table::{EdgeList, Rounds};
use flip_mesh::Mesh;
use plan_core::Plan;
use std::alloc::{AllocError, Global};

/// What a descent for an input of a plan answers.
#[derive(Debug, Drop)]
pub enum Descent {
    /// It reaches the centre in these rounds, which are fewer than those of the input's list.
    Better(Rounds),
    /// It reaches the centre in `given` rounds, and the input's list has `held`, which aren't more.
    NotBetter { held: u64, given: u64 },
    /// After so many rounds it isn't at the centre, and the next round would be empty.
    Stuck(u64),
}

// Makes the next round of a descent and adds it to those made. Answers whether there is one: at the centre, and where the descent is stuck, it would be empty. The candidates become the edges that the round after it can take.
fn go_down(
    alloc: Global,
    mesh: &mut Mesh,
    centre: &Mesh,
    candidates: &mut EdgeList,
    rounds: &mut Rounds,
) -> Result<bool, AllocError>
    requires points { mesh.old.points ≡ centre.now.points }
    requires candidates { HasEachLower mesh.old.points centre.now.edges mesh.old.edges candidates.old }
    ensures points { mesh.new.points ≡ mesh.old.points }
    ensures triangulated { IsTriangulated mesh.old.points mesh.old.edges }
    ensures candidates { OnOk result (HasEachLower mesh.old.points centre.now.edges mesh.new.edges candidates.new) }
    ensures ok { IfOk result (λ more. Descends mesh.old.points centre.now.edges mesh.old.edges rounds.old more mesh.new.edges rounds.new) }
{
    let _ = mesh.points();
    let round = greedy_round(alloc, mesh, candidates, centre)?;
    if round.is_empty() {
        return Ok(false);
    }
    *candidates = neighbours(alloc, mesh, &round)?;
    flip_round(mesh, &round);
    rounds.push(round)?;
    Ok(true)
}

// Leads a mesh down to where the next round would be empty, and answers the rounds. At first each edge that flips can be taken.
fn run_down(alloc: Global, mesh: &mut Mesh, centre: &Mesh) -> Result<Rounds, AllocError>
    requires points { mesh.old.points ≡ centre.now.points }
    ensures points { mesh.new.points ≡ mesh.old.points }
    ensures ok { IfOk result (λ rounds. run mesh.old.points centre.now.edges mesh.old.edges ≡ record { rounds = rounds; end = mesh.new.edges }) }
{
    let flippable = mesh.flippable_list()?;
    let mut candidates = set_of(alloc, flippable.as_slice())?;
    let mut rounds = Rounds::make(alloc);
    while go_down(alloc, mesh, centre, &mut candidates, &mut rounds)? {}
    Ok(rounds)
}

// The answer of a descent that made these rounds.
fn judge(rounds: Rounds, reached: bool, held: u64) -> Descent
    ensures { descent_answer result ≡ judged_as held rounds reached }
{
    let given = rounds.len() as u64;
    if !reached {
        Descent::Stuck(given)
    } else if given < held {
        Descent::Better(rounds)
    } else {
        Descent::NotBetter { held, given }
    }
}

/// Descends from an input to the centre. In each round it goes through the edges in edge order, and takes each one that flips, whose image is crossed by fewer members of the centre than the edge is, and that shares no triangle with an edge taken before in the round. It ends at the centre, or where a round takes nothing.
///
/// After the first round it goes only through the sides of the quadrilaterals that flipped in the round before. An edge that is neither such a side nor an image has the same two triangles as before that round, and was passed over then; an image is crossed by fewer members of the centre than the edge to which it flips.
///
/// The plan isn't copied: the descent flips a mesh of the input. For a round it counts the crossings of each edge that can be taken, and of its image. With m edges a count takes O(log m) steps for each member that is crossed, and for each that it turns over at an end. The sum of the crossings falls by each flip, so there are at most as many flips as the input has crossings with the centre.
pub fn descend(alloc: Global, plan: &Plan, t: u32) -> Result<Descent, AllocError>
    requires { t < length plan.now.problem.inputs }
    ensures { IfOk result (λ d. descent_answer d ≡ descent plan.now.problem.points plan.now.problem.inputs plan.now.plan t) }
{
    let held = plan.cost(t);
    let centre = plan.centre()?;
    let weights = Mesh::of(alloc, &centre)?;
    let mut mesh = Mesh::of(alloc, plan.inst().input(t))?;
    let rounds = run_down(alloc, &mut mesh, &weights)?;
    let reached = mesh.to_triang()?.same(&centre);
    Ok(judge(rounds, reached, held))
}
