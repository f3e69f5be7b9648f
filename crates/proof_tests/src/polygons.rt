// Convex polygons with fans as their inputs, for tests.
ghost use Rattle.std.specs.Prelude.{◌≡◌, length};

use geo_orient::Point;
use std::alloc::{AllocError, Global};
use std::process::Abort;
use std::sync::Arc;
use std::test::Fail;
use tri_check::{Instance, PairList, PointList, RawInputs, RawInstance, RawPair, Uid};

pub const SQUARE: [(i64, i64); 4] = [(0, 0), (2, 0), (2, 2), (0, 2)];

pub const PENTAGON: [(i64, i64); 5] = [(0, 0), (4, 0), (5, 3), (2, 5), (-1, 3)];

pub const HEXAGON: [(i64, i64); 6] = [(5, 0), (3, 4), (-3, 4), (-5, 0), (-3, -4), (3, -4)];

fn points_of(alloc: Global, corners: &[(i64, i64)]) -> Result<PointList, AllocError> {
    let mut points = PointList::make(alloc);
    for i in 0..corners.len() {
        points.push(Point {
            x: corners[i].0,
            y: corners[i].1,
        })?;
    }
    Ok(points)
}

// The edges at one point of a polygon.
fn fan(alloc: Global, count: u32, at: u32) -> Result<PairList, AllocError> {
    let mut pairs = PairList::make(alloc);
    for other in 0..count {
        if other != at {
            pairs.push(RawPair {
                a: i64::from(at),
                b: i64::from(other),
            })?;
        }
    }
    Ok(pairs)
}

// The fans at the points 0, 1 and 0 again.
fn fans(alloc: Global, count: u32) -> Result<RawInputs, AllocError> {
    let mut inputs = RawInputs::make(alloc);
    for at in [0, 1, 0] {
        inputs.push(fan(alloc, count, at)?)?;
    }
    Ok(inputs)
}

// A convex polygon with the fans at its points 0, 1 and 0 again as its inputs.
pub fn polygon(alloc: Global, corners: &[(i64, i64)]) -> Result<Arc<Instance>, Fail> {
    let uid = Uid::of(alloc, "polygon")?;
    let points = points_of(alloc, corners)?;
    let inputs = fans(alloc, corners.len().min(100) as u32)?;
    Ok(Instance::check(alloc, RawInstance::unweighted(alloc, uid, points, inputs)?)?)
}

// Points of a parabola.
pub fn parabola(alloc: Global, count: u32) -> Result<Arc<Instance>, Fail> {
    let mut corners = Vec::new(alloc);
    for i in 0..count {
        let x = i64::from(i % 100);
        corners.push((x, x * x))?;
    }
    polygon(alloc, &corners)
}

pub fn expect_three(rt: &impl Abort, inst: &Instance)
    ensures { length inst.now.inputs ≡ 3 }
{
    assert!(rt; inst.inputs() == 3);
}
