// An instance as a file lists it, before any test.
ghost use Rattle.std.specs.Prelude.{◌≡◌, pos, length, replicate, IfOk};

use crate::Uid;
use geo_orient::Point;
use item_list::ItemList;
use std::alloc::{AllocError, Global};

/// Two numbers that are to name points, in either order.
#[derive(Clone, Copy, Debug, PartialEq, Eq)]
pub struct RawPair {
    pub a: i64,
    pub b: i64,
}

/// An instance as a file lists it.
#[derive(Debug, Drop)]
pub struct RawInstance {
    pub uid: Uid,
    pub points: PointList,
    pub inputs: RawInputs,
    pub weights: WeightList,
}

// So many weights of 1.
fn ones(alloc: Global, count: usize) -> Result<WeightList, AllocError>
    ensures { IfOk result (λ weights. weights ≡ replicate count (pos 1)) }
{
    let mut weights = WeightList::make(alloc);
    for _ in 0..count {
        weights.push(1)?;
    }
    Ok(weights)
}

impl RawInstance {
    /// These points and inputs, where each input has the weight 1.
    pub fn unweighted(
        alloc: Global,
        uid: Uid,
        points: PointList,
        inputs: RawInputs,
    ) -> Result<Self, AllocError>
        ensures { IfOk result (λ raw. raw ≡ record { uid = uid; points = points; inputs = inputs; weights = replicate (length inputs) (pos 1) }) }
    {
        let weights = ones(alloc, inputs.len())?;
        Ok(RawInstance {
            uid,
            points,
            inputs,
            weights,
        })
    }
}

/// A list of points. A point is named by its place, from 0.
pub type PointList = ItemList<Point>;

/// The pairs of one input, in the file's order.
pub type PairList = ItemList<RawPair>;

/// The inputs, each as its list of pairs.
pub type RawInputs = ItemList<PairList>;

/// Whole numbers that are to be the weights of the inputs, one for each, in their order.
pub type WeightList = ItemList<i64>;
