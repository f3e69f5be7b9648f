// Polygons with the fans at two neighbours as their inputs, and a square with both diagonals.
ghost use Rattle.std.specs.Prelude.{◌≡◌, length, IfOk};

use geo_orient::Point;
use std::alloc::{AllocError, Global};
use std::sync::Arc;
use std::test::Fail;
use tri_check::{Instance, PairList, PointList, RawInputs, RawInstance, RawPair, Uid, WeightList};

pub(crate) const SQUARE: [Point; 4] = [
    Point { x: 0, y: 0 },
    Point { x: 2, y: 0 },
    Point { x: 2, y: 2 },
    Point { x: 0, y: 2 },
];

pub(crate) const OCTAGON: [Point; 8] = [
    Point { x: 8, y: 1 },
    Point { x: 7, y: 4 },
    Point { x: 4, y: 7 },
    Point { x: 1, y: 8 },
    Point { x: -1, y: 8 },
    Point { x: -4, y: 7 },
    Point { x: -7, y: 4 },
    Point { x: -8, y: 1 },
];

// The edges at one point of a polygon.
fn fan(alloc: Global, count: usize, at: i64) -> Result<PairList, AllocError> {
    let mut pairs = PairList::make(alloc);
    for other in 0..count.min(100) {
        if other as i64 != at {
            pairs.push(RawPair {
                a: at,
                b: other as i64,
            })?;
        }
    }
    Ok(pairs)
}

fn fans(alloc: Global, count: usize) -> Result<RawInputs, AllocError> {
    let mut inputs = RawInputs::make(alloc);
    inputs.push(fan(alloc, count, 0)?)?;
    inputs.push(fan(alloc, count, 1)?)?;
    Ok(inputs)
}

// A polygon with the fans at its points 0 and 1 as its inputs.
pub(crate) fn polygon(alloc: Global, corners: &[Point]) -> Result<Arc<Instance>, Fail> {
    let uid = Uid::of(alloc, "polygon")?;
    let points = PointList::of(alloc, corners)?;
    let inputs = fans(alloc, corners.len())?;
    Ok(Instance::check(alloc, RawInstance::unweighted(alloc, uid, points, inputs)?)?)
}

fn diagonals(alloc: Global) -> Result<RawInputs, AllocError>
    ensures { IfOk result (λ inputs. length inputs ≡ 2) }
{
    let mut inputs = RawInputs::make(alloc);
    inputs.push(PairList::of(alloc, &[RawPair { a: 0, b: 2 }])?)?;
    inputs.push(PairList::of(alloc, &[RawPair { a: 1, b: 3 }])?)?;
    Ok(inputs)
}

// The square with both diagonals as its inputs, and with these weights.
pub(crate) fn square(alloc: Global, weights: [i64; 2]) -> Result<Arc<Instance>, Fail> {
    let uid = Uid::of(alloc, "square")?;
    let points = PointList::of(alloc, &SQUARE)?;
    let inputs = diagonals(alloc)?;
    let weights = WeightList::of(alloc, &weights)?;
    Ok(Instance::check(
        alloc,
        RawInstance {
            uid,
            points,
            inputs,
            weights,
        },
    )?)
}
