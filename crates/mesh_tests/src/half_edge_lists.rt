// The half edges of the square with one diagonal.
use geo_orient::Point;
use half_edges::*;
use std::alloc::{AllocError, Global};
use std::sync::Arc;
use std::test::Fail;
use tri_check::{CheckFault, Instance, PairList, PointList, RawInputs, RawInstance, RawPair, Uid};

fn corners(alloc: Global) -> Result<PointList, AllocError> {
    let mut points = PointList::make(alloc);
    points.push(Point { x: 0, y: 0 })?;
    points.push(Point { x: 2, y: 0 })?;
    points.push(Point { x: 2, y: 2 })?;
    points.push(Point { x: 0, y: 2 })?;
    Ok(points)
}

fn diagonal(alloc: Global) -> Result<RawInputs, AllocError> {
    let mut input = PairList::make(alloc);
    input.push(RawPair { a: 0, b: 2 })?;
    let mut inputs = RawInputs::make(alloc);
    inputs.push(input)?;
    Ok(inputs)
}

fn square(alloc: Global) -> Result<Arc<Instance>, CheckFault> {
    let raw = RawInstance::unweighted(
        alloc,
        Uid::of(alloc, "square")?,
        corners(alloc)?,
        diagonal(alloc)?,
    )?;
    Instance::check(alloc, raw)
}

// A half edge of the border, with nothing on its left.
fn bare(from: u32, to: u32, edge: usize) -> HalfEdge {
    HalfEdge {
        from,
        to,
        edge,
        beyond: None,
    }
}

// A half edge with a triangle on its left.
fn inner(from: u32, to: u32, edge: usize, apex: u32, near: usize, far: usize) -> HalfEdge {
    HalfEdge {
        from,
        to,
        edge,
        beyond: Some(Beyond { apex, near, far }),
    }
}

fn wanted() -> [HalfEdge; 10] {
    [
        inner(0, 1, 0, 2, 1, 6),
        inner(0, 2, 1, 3, 2, 9),
        bare(0, 3, 2),
        bare(1, 0, 0),
        inner(1, 2, 3, 0, 3, 1),
        inner(2, 0, 1, 1, 6, 3),
        bare(2, 1, 3),
        inner(2, 3, 4, 0, 5, 2),
        inner(3, 0, 2, 2, 9, 5),
        bare(3, 2, 4),
    ]
}

#[test]
fn a_square_has_ten_half_edges(rt: HostRuntime) -> Result<(), Fail> {
    let instance = square(rt.alloc())?;
    assert_eq!(rt; instance.inputs(), 1);
    let graph = HalfEdges::of(rt.alloc(), instance.input(0))?;
    assert!(rt; graph.items() == wanted().as_slice());
    Ok(())
}

#[test]
fn two_half_edges_leave_a_corner(rt: HostRuntime) -> Result<(), Fail> {
    let instance = square(rt.alloc())?;
    assert_eq!(rt; instance.inputs(), 1);
    let triang = instance.input(0);
    let graph = HalfEdges::of(rt.alloc(), triang)?;
    assert_eq!(rt; triang.points().len(), 4);
    assert_eq!(rt; graph.points(), 4);
    let places = graph.leaving(1);
    assert_eq!(rt; places.start, 3);
    assert_eq!(rt; places.end, 5);
    Ok(())
}
