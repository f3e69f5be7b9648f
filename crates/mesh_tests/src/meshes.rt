// The square with ample memory: its diagonal flips there and back.
use crate::polygons::{SQUARE, edge, expect_input, instance};
use edge_table::Edge;
use flip_mesh::*;
use std::alloc::{AllocError, Global};
use std::process::Abort;
use std::test::Fail;

// The mesh of the square with one diagonal.
fn square(rt: &impl Abort, alloc: Global) -> Result<Mesh, Fail> {
    let inst = instance(alloc, &SQUARE, &[&[(0, 2)]])?;
    assert!(rt; inst.inputs() == 1);
    expect_input(rt, &inst, 0);
    Ok(Mesh::of(alloc, inst.input(0))?)
}

// The image of an edge that is to flip.
fn turned(rt: &impl Abort, mesh: &mut Mesh, e: Edge) -> Edge {
    match mesh.quad(e) {
        Some(_) => mesh.flip(e),
        None => panic!(rt; "no flip"),
    }
}

fn flippable_edges(mesh: &Mesh) -> Result<usize, AllocError> {
    let list = mesh.flippable_list()?;
    Ok(list.len())
}

fn has_in_list(mesh: &Mesh, e: Edge) -> Result<bool, AllocError> {
    let triang = mesh.to_triang()?;
    Ok(triang.has(e))
}

// Whether the mesh turns an edge back, and a copy that was made before still has it.
fn turns_back(rt: &impl Abort, mesh: &mut Mesh, e: Edge, image: Edge) -> Result<bool, AllocError> {
    let copy = mesh.copy()?;
    let back = turned(rt, mesh, e);
    let stays = has_in_list(&copy, e)?;
    Ok(back == image && !mesh.has(e) && stays)
}

#[test]
fn a_diagonal_flips_there_and_back(rt: HostRuntime) -> Result<(), Fail> {
    let mut mesh = square(&rt, rt.alloc())?;
    assert!(rt; turned(&rt, &mut mesh, edge(&rt, 0, 2)) == edge(&rt, 1, 3));
    assert!(rt; flippable_edges(&mesh)? == 1);
    assert!(rt; turns_back(&rt, &mut mesh, edge(&rt, 1, 3), edge(&rt, 0, 2))?);
    Ok(())
}
