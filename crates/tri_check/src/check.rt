// The validator's steps, in the order of the faults.
ghost use Rattle.std.specs.Prelude.{◌≡◌, ◌<◌, ◌≤◌, ℕ, length, sum, map, IfOk, IfErr, OnOk, IfSome, MatchOption};
ghost use Rattle.tri_check.specs.Stages as stage;

use crate::hull::hull;
use crate::keys::are_distinct;
use crate::members::{bad_vertex, first_loop, members};
use crate::network::{blocked, crossing, lone_point, open_side};
use crate::points::{are_collinear, out_of_reach, repeated};
use crate::table::is_triangulation;
use crate::{Bad, CheckFault, PointList, RawInputs, Triang};
use edge_table::EdgeList;
use geo_orient::Point;
use std::alloc::{AllocError, Global};
use std::sync::Arc;

const MAX_POINTS: usize = 16_384;

const MAX_INPUTS: usize = 256;

const MAX_PAIRS: u64 = 2_000_000;

// The number of pairs in all inputs, where it fits.
fn count_pairs(inputs: &RawInputs) -> Option<u64>
    ensures { IfSome result (λ c. c ≡ sum (map (λ pairs. length pairs) inputs.now)) }
{
    let mut total: u64 = 0;
    for t in 0..inputs.len() {
        total = total.checked_add(inputs.at(t).len() as u64)?;
    }
    Some(total)
}

// Whether the numbers of points, inputs and pairs are within the limits. So many pairs that their number doesn't fit can't lie in memory.
pub(crate) fn check_limits(points: &[Point], inputs: &RawInputs) -> Result<(), CheckFault>
    ensures ok { OnOk result (stage.AreLimited points.now inputs.now) }
    ensures err { IfErr result (stage.IsShapeRefusal points.now inputs.now) }
{
    if points.len() > MAX_POINTS {
        return Err(CheckFault::Bad(Bad::TooManyPoints(points.len() as u64)));
    }
    if inputs.len() > MAX_INPUTS {
        return Err(CheckFault::Bad(Bad::TooManyInputs(inputs.len() as u64)));
    }
    match count_pairs(inputs) {
        None => Err(CheckFault::OutOfMemory),
        Some(count) => {
            if count > MAX_PAIRS {
                return Err(CheckFault::Bad(Bad::TooManyPairs(count)));
            }
            Ok(())
        }
    }
}

// The first two equal points. All pairs are only compared where the points aren't shown to differ at once.
fn first_repeat(alloc: Global, points: &[Point]) -> Result<Option<(u32, u32)>, AllocError>
    requires { stage.AreUsable points.now }
    ensures { IfOk result (λ o. MatchOption o (stage.AreDistinct points.now) (λ r. stage.IsFirstRepeat points.now r.0 r.1)) }
{
    let are_shown = are_distinct(alloc, points)?;
    if are_shown {
        return Ok(None);
    }
    Ok(repeated(points))
}

// Whether the points are in reach, distinct and not all on one line, and there is an input.
pub(crate) fn check_points(
    alloc: Global,
    points: &[Point],
    inputs: &RawInputs,
) -> Result<(), CheckFault>
    requires { stage.AreLimited points.now inputs.now }
    ensures ok { OnOk result (stage.AreSound points.now inputs.now) }
    ensures err { IfErr result (stage.IsShapeRefusal points.now inputs.now) }
{
    if let Some(i) = out_of_reach(points) {
        return Err(CheckFault::Bad(Bad::CoordinateRange(i)));
    }
    if points.len() < 3 {
        return Err(CheckFault::Bad(Bad::TooFewPoints(points.len() as u64)));
    }
    let twice = first_repeat(alloc, points)?;
    if let Some((i, j)) = twice {
        return Err(CheckFault::Bad(Bad::RepeatedPoint(i, j)));
    }
    if are_collinear(points) {
        return Err(CheckFault::Bad(Bad::Collinear));
    }
    if inputs.is_empty() {
        return Err(CheckFault::Bad(Bad::NoInput));
    }
    Ok(())
}

// The members of the input with the place `t`, where they are a triangulation. Only where that isn't shown at once are faults looked for, kind by kind.
fn check_input(
    alloc: Global,
    points: &[Point],
    inputs: &RawInputs,
    hull: &EdgeList,
    t: usize,
) -> Result<EdgeList, CheckFault>
    requires sound { stage.AreSound points.now inputs.now }
    requires hull { stage.AreHull points.now hull.now }
    requires within { t < length inputs.now }
    requires before { (s : ℕ) → s < t → stage.IsFaultless points.now inputs.now s }
    ensures ok { IfOk result (stage.IsInput points.now inputs.now t) }
    ensures err { IfErr result (stage.IsShapeRefusal points.now inputs.now) }
{
    let number = t as u32;
    let pairs = inputs.at(t).as_slice();
    if let Some(p) = bad_vertex(points, pairs) {
        return Err(CheckFault::Bad(Bad::BadVertex(number, p as u64)));
    }
    if let Some(p) = first_loop(pairs) {
        return Err(CheckFault::Bad(Bad::Loop(number, p as u64)));
    }
    let edges = members(alloc, points, pairs, hull)?;
    let is_shown = is_triangulation(alloc, points, &edges, hull)?;
    if is_shown {
        return Ok(edges);
    }
    if let Some((e, q)) = blocked(points, &edges) {
        return Err(CheckFault::Bad(Bad::Blocked(number, e, q)));
    }
    if let Some((e, f)) = crossing(points, &edges) {
        return Err(CheckFault::Bad(Bad::Crossing(number, e, f)));
    }
    if let Some(p) = lone_point(points, &edges) {
        return Err(CheckFault::Bad(Bad::LonePoint(number, p)));
    }
    if let Some(e) = open_side(points, &edges) {
        return Err(CheckFault::Bad(Bad::OpenSide(number, e)));
    }
    Ok(edges)
}

// The triangulations that the inputs stand for.
pub(crate) fn check_inputs(
    alloc: Global,
    points: &Arc<PointList>,
    inputs: &RawInputs,
) -> Result<Vec<Triang>, CheckFault>
    requires { stage.AreSound points.now.value inputs.now }
    ensures ok { IfOk result (λ v. stage.AreDone points.now.value inputs.now v.items (length inputs.now)) }
    ensures err { IfErr result (stage.IsShapeRefusal points.now.value inputs.now) }
{
    let list = points.as_slice();
    let hull = hull(alloc, list)?;
    let mut items = Vec::new(alloc);
    for t in 0..inputs.len() {
        let edges = check_input(alloc, list, inputs, &hull, t)?;
        items.push(Triang::from_edges(Arc::try_clone(points)?, edges))?;
    }
    Ok(items)
}
