// An instance: a name, points, and triangulations of them as inputs.
ghost use Rattle.std.specs.Prelude.{◌≡◌, ◌<◌, ◌≤◌, ◌↔◌, ◌*◌, ◌-◌, ◌^◌, length, sum, slice_get, slice_index_or, Some, IsTrue, IfOk, IfErr};
ghost use Rattle.tri_theory.specs.Triangulations.{IsSegment};
ghost use Rattle.tri_theory.specs.Copies.{copy_of};
ghost use Rattle.tri_check.specs.Problems.{IsProblem, AreFewWeights};
ghost use Rattle.tri_check.specs.Accepted.{IsAccepted, IsRefusal};

use crate::check::{check_inputs, check_limits, check_points};
use crate::network::blocker_of;
use crate::weights::{check_weights, owner, sum_of};
use crate::{CheckFault, PointList, RawInstance, Triang, Uid};
use edge_table::Edge;
use geo_orient::Point;
use item_list::ItemList;
use std::alloc::Global;
use std::marker::Model;
use std::sync::Arc;

/// An instance, seen as its uid, its points, the edges of each input and the weight of each: how often a plan counts its rounds.
#[derive(Drop)]
pub struct Instance {
    uid: Uid,
    points: Arc<PointList>,
    inputs: Vec<Triang>,
    weights: ItemList<u32>,
}

impl Model for Instance {
    ghost use Rattle.tri_check.specs.Problems.{Problem, all_edges, AreInputs};

    ghost Value = { Problem };

    ghost view = { λ i. record { uid = i.uid; points = i.points.value; inputs = all_edges i.inputs.items; weights = i.weights } };

    ghost invariant = { λ i. AreInputs i.points.value i.inputs.items i.weights };
}

fn triangulation_at(inputs: &[Triang], i: usize) -> &Triang
    requires { i < length inputs.now }
    ensures { slice_get inputs.now i ≡ Some result.now }
{
    &inputs[i]
}

impl Instance {
    /// The instance of raw values, or what is wrong with them. For an instance, time grows with the number of points and of members, and with their logarithm. Only what isn't shown to be one at once is searched for its first fault, and then time grows with the square of the number of points and of the members of an input, and for each member with the number of points.
    pub fn check(alloc: Global, raw: RawInstance) -> Result<Arc<Self>, CheckFault>
        requires { length raw.weights ≡ length raw.inputs }
        ensures ok { IfOk result (λ i. IsAccepted raw.uid raw.points raw.inputs raw.weights i.value) }
        ensures bad { IfErr result (IsRefusal raw.points raw.inputs raw.weights) }
    {
        let RawInstance {
            uid,
            points,
            inputs: listed,
            weights,
        } = raw;
        check_limits(points.as_slice(), &listed)?;
        check_points(alloc, points.as_slice(), &listed)?;
        let points = Arc::new(alloc, points)?;
        let inputs = check_inputs(alloc, &points, &listed)?;
        let weights = check_weights(alloc, weights.as_slice())?;
        Ok(Arc::new(
            alloc,
            Instance {
                uid,
                points,
                inputs,
                weights,
            },
        )?)
    }

    pub fn uid(&self) -> &Uid
        ensures { result.now ≡ self.now.uid }
    {
        &self.uid
    }

    /// The number of points.
    pub fn count(&self) -> u32
        ensures count { result ≡ length self.now.points }
        ensures problem { IsProblem self.now.points self.now.inputs }
        ensures weights { AreFewWeights self.now.inputs self.now.weights }
    {
        self.points.len() as u32
    }

    pub fn point(&self, i: u32) -> Point
        requires { i < length self.now.points }
        ensures { slice_get self.now.points i ≡ Some result }
    {
        *self.points.at(i as usize)
    }

    /// The number of inputs.
    pub fn inputs(&self) -> u32
        ensures { result ≡ length self.now.inputs }
    {
        self.inputs.len() as u32
    }

    pub fn input(&self, t: u32) -> &Triang
        requires { t < length self.now.inputs }
        ensures points { result.now.points ≡ self.now.points }
        ensures edges { slice_get self.now.inputs t ≡ Some result.now.edges }
    {
        triangulation_at(&self.inputs, t as usize)
    }

    /// The weight of an input, from 1 to 16: each of its rounds counts so often in a total.
    pub fn weight(&self, t: u32) -> u32
        requires { t < length self.now.inputs }
        ensures weight { slice_get self.now.weights t ≡ Some result }
        ensures positive { 1 ≤ result }
        ensures small { result ≤ 16 }
    {
        *self.weights.at(t as usize)
    }

    /// So many rounds of an input as a total counts them: each as often as the input's weight says.
    pub fn weighed(&self, t: u32, rounds: u64) -> u128
        requires { t < length self.now.inputs }
        ensures weighed { result ≡ slice_index_or self.now.weights t 0 * rounds }
        ensures small { result ≤ 16 * (2 ^ 64 - 1) }
    {
        u128::from(self.weight(t)) * u128::from(rounds)
    }

    /// The number of copies, at most 256: each input stands for as many as its weight says.
    pub fn copies(&self) -> u32
        ensures copies { result ≡ sum self.now.weights }
        ensures few { result ≤ 256 }
    {
        sum_of(self.weights.as_slice()) as u32
    }

    /// The input that a copy is of. The copies are numbered from 0: those of input 0, then those of input 1, and so on. Time grows with the number of inputs.
    pub fn copy_of(&self, c: u32) -> u32
        requires { c < sum self.now.weights }
        ensures copy { result ≡ copy_of self.now.weights c }
        ensures input { result < length self.now.inputs }
    {
        owner(self.weights.as_slice(), c)
    }

    /// Whether no point lies strictly between the ends, in time linear in the number of points.
    pub fn is_segment(&self, e: Edge) -> bool
        requires { e.1 < length self.now.points }
        ensures { IsTrue result ↔ IsSegment self.now.points e }
    {
        let _ = self.count();
        blocker_of(self.points.as_slice(), e).is_none()
    }
}
