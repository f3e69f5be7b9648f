//! Laws by which tests of neighbours are enough: triangles that fit together at their sides are a triangulation, and chains that turn left, with all points on their left, are a hull.
#![tactic(auto)]

ghost use Rattle.planar_law.specs.Laws.{PatchesAreTriangulations, ChainsAreHulls};

/// The laws of triangles and of chains.
pub fn laws()
    ensures patches_are_triangulations { PatchesAreTriangulations }
    ensures chains_are_hulls { ChainsAreHulls }
{}
