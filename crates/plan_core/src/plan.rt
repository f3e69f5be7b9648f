// A plan of an instance.
ghost use Rattle.std.specs.Prelude.{◌≡◌, ◌<◌, ◌≤◌, ◌↔◌, suc, length, Some, IsTrue, IfOk, IfErr, OnOk, OnErr, All};
ghost use Rattle.std.specs.List.{AllZip};
ghost use Rattle.tri_theory.specs.Flips.{FlipsTo, Flips};
ghost use Rattle.tri_check.specs.Problems.{IsProblem};
ghost use Rattle.flip_list_law.specs.FlipLists.{round_count, grouped};
ghost use Rattle.flip_list_law.specs.Laws.{Replays};
ghost use Rattle.bound_law.specs.Bounds.{input_at};
ghost use Rattle.plan_law.specs.Images.{flippable};
ghost use Rattle.plan_law.specs.Plans.{IsPlanOf, plan_total, followed, last_moves, moves, lowers};
ghost use Rattle.plan_core.specs.HeldPlans.{LeadsTo, HasSchedules, TotalsAfter, lists_of, least_spare, list_at};
ghost use Rattle.plan_core.specs.Steps.{IsLed, IsTrackFor};
ghost use Rattle.plan_core.specs.SwapFaults.{IsSwapFault, Saves};

use crate::follow::follow_all;
use crate::moves::{add_lasts, add_singles};
use crate::room::reserve_all;
use crate::swap::{lead_to, put, track_of};
use crate::totals::{sum_rounds, sum_rounds_after};
use crate::trial::would_lower;
use crate::{MoveList, SwapFault};
use edge_table::{Edge, EdgeSeq, Rounds};
use flip_mesh::Mesh;
use round_pack::{Track, TrackList};
use std::alloc::{AllocError, Global};
use std::marker::Model;
use std::sync::Arc;
use tri_check::{Instance, Triang};

/// A plan of an instance, seen as the instance, the centre with the flip list of each input, and the least number of flips that a list can take without memory.
#[derive(Drop)]
pub struct Plan {
    alloc: Global,
    inst: Arc<Instance>,
    centre: Mesh,
    tracks: TrackList,
}

impl Model for Plan {
    ghost use Rattle.plan_core.specs.HeldPlans.{HeldPlan, least_spare};

    ghost Value = { HeldPlan };

    ghost use Rattle.plan_core.specs.States.{plan_of, IsHeld};

    ghost view = { λ p. record { problem = p.inst.value; plan = plan_of p.inst.value p.centre.edges p.tracks; spare = least_spare p.tracks } };

    ghost invariant = { λ p. IsHeld p.inst.value p.centre p.tracks };
}

// Groups each list once, which shows that its flips lead from its start to its end.
fn group_all(tracks: &TrackList) -> Result<(), AllocError>
    ensures { OnOk result (All IsLed tracks.now) }
{
    for i in 0..tracks.len() {
        tracks.at(i).grouped()?;
    }
    Ok(())
}

impl Plan {
    /// The plan with the flips of these tracks as its lists. Each list is grouped once.
    pub fn opening(
        alloc: Global,
        inst: Arc<Instance>,
        centre: Triang,
        tracks: TrackList,
    ) -> Result<Plan, AllocError>
        requires points { centre.points ≡ inst.value.points }
        requires tracks { AllZip (LeadsTo inst.value.points centre.edges) inst.value.inputs tracks }
        ensures problem { IfOk result (λ p. p.problem ≡ inst.value) }
        ensures centre { IfOk result (λ p. p.plan.centre ≡ centre.edges) }
        ensures lists { IfOk result (λ p. p.plan.lists ≡ lists_of tracks) }
        ensures spare { IfOk result (λ p. p.spare ≡ least_spare tracks) }
    {
        let _ = inst.count();
        group_all(&tracks)?;
        let centre = Mesh::of(alloc, &centre)?;
        Ok(Plan {
            alloc,
            inst,
            centre,
            tracks,
        })
    }

    /// The rounds of all lists, each counted as often as the weight of its input says.
    pub fn total(&self) -> u128
        ensures total { result ≡ plan_total self.now.plan }
        ensures problem { IsProblem self.now.problem.points self.now.problem.inputs }
        ensures plan { IsPlanOf self.now.problem.points self.now.problem.inputs self.now.plan }
        ensures schedules { HasSchedules self.now.problem self.now.plan }
    {
        sum_rounds(&self.inst, &self.tracks)
    }

    /// The rounds of the list of an input.
    pub fn cost(&self, t: u32) -> u64
        requires { t < length self.now.problem.inputs }
        ensures { result ≡ round_count (list_at self.now.plan t) }
    {
        self.tracks.at(t as usize).rounds()
    }

    /// What `total` would answer once an edge that flips in the centre was followed. It takes no memory and changes nothing.
    pub fn total_after(&self, e: Edge) -> u128
        requires { Flips self.now.problem.points self.now.plan.centre e }
        ensures { TotalsAfter self.now.problem.points self.now.plan e result }
    {
        let _ = self.centre.points();
        sum_rounds_after(&self.inst, &self.tracks, e)
    }

    /// Whether an edge flips in the centre.
    pub fn flips(&self, e: Edge) -> bool
        ensures { IsTrue result ↔ Flips self.now.problem.points self.now.plan.centre e }
    {
        self.centre.quad(e).is_some()
    }

    /// The instance.
    pub fn inst(&self) -> &Arc<Instance>
        ensures { result.now.value ≡ self.now.problem }
    {
        &self.inst
    }

    /// The centre.
    pub fn centre(&self) -> Result<Triang, AllocError>
        ensures points { IfOk result (λ t. t.points ≡ self.now.problem.points) }
        ensures edges { IfOk result (λ t. t.edges ≡ self.now.plan.centre) }
    {
        let _ = &self.inst;
        self.centre.to_triang()
    }

    /// The rounds of an input: the edges of its flips by round number, each round in edge order. They are a schedule from the input to the centre.
    pub fn schedule(&self, t: u32) -> Result<Rounds, AllocError>
        requires { t < length self.now.problem.inputs }
        ensures rounds { IfOk result (λ r. r ≡ grouped (list_at self.now.plan t)) }
        ensures schedule { Replays self.now.problem.points (input_at self.now.problem.inputs t) (list_at self.now.plan t) self.now.plan.centre }
    {
        self.tracks.at(t as usize).grouped()
    }

    /// The edges that flip in the centre, in edge order, in O(m log m) steps for m edges. Each is a move of one edge.
    pub fn flippable(&self) -> Result<EdgeSeq, AllocError>
        ensures { IfOk result (λ edges. edges ≡ flippable self.now.problem.points self.now.plan.centre) }
    {
        let _ = self.centre.points();
        self.centre.flippable_list()
    }

    /// The last of the moves: for each input in order that has a round the images of its last round, in edge order. So there is at most one for each input. Each flip of each list is looked at once.
    pub fn last_moves(&self) -> Result<MoveList, AllocError>
        ensures { IfOk result (λ m. m ≡ last_moves self.now.plan.lists) }
    {
        let mut moves = MoveList::make(self.alloc);
        add_lasts(&mut moves, &self.tracks)?;
        Ok(moves)
    }

    /// The moves, each a list of edges to be followed one after the other: first each edge that flips in the centre, in edge order, and then for each input in order that has a round the images of its last round, in edge order.
    pub fn moves(&self) -> Result<MoveList, AllocError>
        ensures { IfOk result (λ m. m ≡ moves self.now.problem.points self.now.plan) }
    {
        let edges = self.flippable()?;
        let mut moves = MoveList::make(self.alloc);
        add_singles(self.alloc, &mut moves, &edges)?;
        add_lasts(&mut moves, &self.tracks)?;
        Ok(moves)
    }

    /// Whether edges can be followed one after the other, and the total is lower then. It copies the mesh of the centre, each list with all images of its last round among the edges, since no other can have fewer rounds then, and after that one list after the other, up to the one that shows that the total isn't lower. For one edge `flips` and `total_after` tell it without a copy.
    pub fn lowers(&self, edges: &EdgeSeq) -> Result<bool, AllocError>
        ensures { IfOk result (λ b. b ≡ lowers self.now.problem.points self.now.plan edges.now) }
    {
        would_lower(self.alloc, &self.inst, &self.centre, &self.tracks, edges)
    }

    /// Makes room in each list for at least `k` more flips, and changes nothing else.
    pub fn reserve(&mut self, k: usize) -> Result<(), AllocError>
        ensures problem { self.new.problem ≡ self.old.problem }
        ensures plan { self.new.plan ≡ self.old.plan }
        ensures spare { self.old.spare ≤ self.new.spare }
        ensures room { OnOk result (k ≤ self.new.spare) }
    {
        reserve_all(&mut self.tracks, k)
    }

    /// Follows an edge that flips in the centre in every list, and answers its image. It takes no memory.
    pub fn follow(&mut self, e: Edge) -> Edge
        requires flips { Flips self.old.problem.points self.old.plan.centre e }
        requires spare { 0 < self.old.spare }
        ensures problem { self.new.problem ≡ self.old.problem }
        ensures plan { followed self.old.problem.points self.old.plan e ≡ Some self.new.plan }
        ensures image { FlipsTo self.old.problem.points self.old.plan.centre e result }
        ensures spare { self.old.spare ≤ suc self.new.spare }
    {
        let _ = self.centre.points();
        follow_all(&mut self.tracks, e);
        self.centre.flip(e)
    }

    // The track of rounds that lead from an input to the centre.
    fn track_for(&self, t: u32, rounds: &Rounds) -> Result<Track, SwapFault>
        requires { t < length self.now.problem.inputs }
        ensures ok { IfOk result (IsTrackFor self.now.problem self.now.plan t rounds.now) }
        ensures err { IfErr result (IsSwapFault self.now.problem self.now.plan t rounds.now) }
    {
        let _ = self.centre.points();
        let input = self.inst.input(t);
        lead_to(self.alloc, &self.centre, input, rounds)?;
        Ok(track_of(self.alloc, input, rounds)?)
    }

    /// Puts the flips of rounds that lead from an input to the centre, in order, in place of its list, where they need fewer rounds, and answers how many are saved. How many more flips the list can then take without memory is free.
    pub fn swap(&mut self, t: u32, rounds: &Rounds) -> Result<u64, SwapFault>
        requires { t < length self.old.problem.inputs }
        ensures ok { IfOk result (Saves self.old self.new t rounds.now) }
        ensures err { IfErr result (IsSwapFault self.old.problem self.old.plan t rounds.now) }
        ensures kept { OnErr result (self.new ≡ self.old) }
    {
        let track = self.track_for(t, rounds)?;
        let held = self.cost(t);
        let given = track.rounds();
        if held <= given {
            return Err(SwapFault::NotFewer { held, given });
        }
        put(&mut self.tracks, t as usize, track);
        Ok(held - given)
    }

    /// An equal plan. The instance is shared, and not copied.
    pub fn copy(&self) -> Result<Plan, AllocError>
        ensures { IfOk result (λ p. p ≡ self.now) }
    {
        let inst = Arc::try_clone(&self.inst)?;
        let centre = self.centre.copy()?;
        let tracks = self.tracks.copy()?;
        Ok(Plan {
            alloc: self.alloc,
            inst,
            centre,
            tracks,
        })
    }
}
