// Small instances, valid ones and one for each kind of fault.
ghost use Rattle.std.specs.Prelude.{◌≡◌, length, IfOk};

use edge_table::Edge;
use geo_orient::Point;
use std::alloc::{AllocError, Global};
use std::process::Abort;
use std::test::Fail;
use tri_check::*;

fn point(x: i64, y: i64) -> Point {
    Point { x, y }
}

fn edge(rt: &impl Abort, a: u32, b: u32) -> Edge {
    Edge::of(a, b).expect(rt, "two points")
}

fn raw(
    alloc: Global,
    points: &[Point],
    pairs: Option<&[(i64, i64)]>,
) -> Result<RawInstance, AllocError>
    ensures { IfOk result (λ raw. length raw.weights ≡ length raw.inputs) }
{
    let mut list = PointList::make(alloc);
    for p in points {
        list.push(*p)?;
    }
    let mut inputs = RawInputs::make(alloc);
    if let Some(pairs) = pairs {
        let mut input = PairList::make(alloc);
        for (a, b) in pairs {
            input.push(RawPair { a: *a, b: *b })?;
        }
        inputs.push(input)?;
    }
    RawInstance::unweighted(alloc, Uid::of(alloc, "small")?, list, inputs)
}

// What is wrong with the points and one input of these pairs.
fn fault(alloc: Global, points: &[Point], pairs: &[(i64, i64)]) -> Result<Option<Bad>, AllocError> {
    match Instance::check(alloc, raw(alloc, points, Some(pairs))?).err() {
        None => Ok(None),
        Some(CheckFault::Bad(bad)) => Ok(Some(bad)),
        Some(CheckFault::OutOfMemory) => Err(AllocError),
    }
}

fn square() -> [Point; 4] {
    [point(0, 0), point(2, 0), point(2, 2), point(0, 2)]
}

#[test]
fn a_square_with_a_diagonal_is_valid(rt: HostRuntime) -> Result<(), Fail> {
    let instance = Instance::check(rt.alloc(), raw(rt.alloc(), &square(), Some(&[(0, 2)]))?)?;
    assert_eq!(rt; instance.count(), 4);
    assert_eq!(rt; instance.inputs(), 1);
    assert_eq!(rt; instance.input(0).len(), 5);
    let other = edge(&rt, 1, 3);
    assert!(rt; other.high() < instance.count());
    assert!(rt; instance.is_segment(other));
    Ok(())
}

#[test]
fn faults_of_the_members(rt: HostRuntime) -> Result<(), Fail> {
    let both = fault(rt.alloc(), &square(), &[(0, 2), (1, 3)])?;
    assert_eq!(rt;
        both,
        Some(Bad::Crossing(0, edge(&rt, 0, 2), edge(&rt, 1, 3)))
    );
    let none = fault(rt.alloc(), &square(), &[])?;
    assert_eq!(rt; none, Some(Bad::OpenSide(0, edge(&rt, 0, 1))));
    let [a, b, c, d] = square();
    let lone = fault(rt.alloc(), &[a, b, c, d, point(1, 1)], &[])?;
    assert_eq!(rt; lone, Some(Bad::LonePoint(0, 4)));
    Ok(())
}

#[test]
fn a_blocked_member_comes_before_a_crossing(rt: HostRuntime) -> Result<(), Fail> {
    let points = [point(0, 0), point(1, 0), point(2, 0), point(1, 2)];
    let blocked = fault(rt.alloc(), &points, &[(1, 3), (0, 2)])?;
    assert_eq!(rt; blocked, Some(Bad::Blocked(0, edge(&rt, 0, 2), 1)));
    assert_eq!(rt; fault(rt.alloc(), &points, &[(1, 3)])?, None);
    Ok(())
}

#[test]
fn faults_of_the_pairs(rt: HostRuntime) -> Result<(), Fail> {
    assert_eq!(rt;
        fault(rt.alloc(), &square(), &[(0, 7)])?,
        Some(Bad::BadVertex(0, 0))
    );
    assert_eq!(rt;
        fault(rt.alloc(), &square(), &[(1, 1)])?,
        Some(Bad::Loop(0, 0))
    );
    let later = fault(rt.alloc(), &square(), &[(1, 1), (0, 7)])?;
    assert_eq!(rt; later, Some(Bad::BadVertex(0, 1)));
    Ok(())
}

#[test]
fn faults_of_the_points(rt: HostRuntime) -> Result<(), Fail> {
    let equal = [point(0, 0), point(2, 0), point(2, 2), point(0, 0)];
    assert_eq!(rt;
        fault(rt.alloc(), &equal, &[])?,
        Some(Bad::RepeatedPoint(0, 3))
    );
    let line = [point(0, 0), point(1, 1), point(2, 2)];
    assert_eq!(rt; fault(rt.alloc(), &line, &[])?, Some(Bad::Collinear));
    let two = [point(0, 0), point(1, 1)];
    assert_eq!(rt; fault(rt.alloc(), &two, &[])?, Some(Bad::TooFewPoints(2)));
    Ok(())
}

#[test]
fn an_instance_has_an_input(rt: HostRuntime) -> Result<(), Fail> {
    let refused = Instance::check(rt.alloc(), raw(rt.alloc(), &square(), None)?).err();
    assert_eq!(rt; refused, Some(CheckFault::Bad(Bad::NoInput)));
    Ok(())
}
