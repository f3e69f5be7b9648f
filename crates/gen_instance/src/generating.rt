// An instance by a seed.
ghost use Rattle.std.specs.Prelude.{◌≡◌, ◌<◌, ◌≤◌, length, replicate, pos, IfOk};
ghost use Rattle.sweep_law.specs.Boundaries.{CanBeSwept};
ghost use Rattle.gen_instance.specs.Generated.{IsGenerated, IsSweptAlong, direction_of};
ghost use Rattle.gen_instance.specs.Sweeping.{AreInputs};

use crate::direction::direction_of;
use crate::points::points_of;
use crate::sweep::sweep_along;
use geo_orient::Point;
use std::alloc::{AllocError, Global};
use tri_check::{RawInputs, RawInstance, Uid};

// So many inputs.
fn inputs_of(
    alloc: Global,
    points: &[Point],
    seed: u64,
    count: u32,
) -> Result<RawInputs, AllocError>
    requires points { CanBeSwept points.now }
    requires count { length points.now ≤ 16_384 }
    ensures { IfOk result (AreInputs points.now seed count) }
{
    let mut inputs = RawInputs::make(alloc);
    for t in 0..count {
        inputs.push(sweep_along(alloc, points, direction_of(seed, t))?)?;
    }
    Ok(inputs)
}

/// The instance that a seed names, with so many points and inputs, whose name is `bench`. The points come from the words of stream 0. Each input is a sweep of the points along a direction that comes from the words of a stream of its own, and has the weight 1. That it is valid is found by `Instance::check`, as for any other.
///
/// An input takes the time of sorting the points and of what it lists.
pub fn generate(
    alloc: Global,
    seed: u64,
    points: u32,
    inputs: u32,
) -> Result<RawInstance, AllocError>
    requires points { (3 ≤ points) × (points ≤ 16_384) }
    requires inputs { (1 ≤ inputs) × (inputs ≤ 256) }
    ensures { IfOk result (IsGenerated seed points inputs) }
{
    let uid = Uid::of(alloc, "bench")?;
    let points = points_of(alloc, seed, points)?;
    let inputs = inputs_of(alloc, points.as_slice(), seed, inputs)?;
    RawInstance::unweighted(alloc, uid, points, inputs)
}
