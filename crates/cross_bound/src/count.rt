// How many members of a triangulation cross a segment, and how many digits that number has.
ghost use Rattle.std.specs.Prelude.{◌≡◌};
ghost use Rattle.tri_theory.specs.Triangulations.{IsSegment};
ghost use Rattle.tri_theory.specs.Crossings.{crossings};
ghost use Rattle.crossing_law.specs.Digits.{digits};

use crate::start::first_way;
use crate::walk::walk;
use edge_table::Edge;
use flip_mesh::Mesh;

/// How many members of a mesh cross a segment of the points. It walks along the segment from triangle to triangle: it takes O(1) steps on average for each of them, and for each member that it turns over at the segment's low end.
pub fn crossings(mesh: &Mesh, e: Edge) -> u32
    requires { IsSegment mesh.now.points e }
    ensures { result ≡ crossings mesh.now.points mesh.now.edges e }
{
    let _ = mesh.points();
    if mesh.has(e) {
        return 0;
    }
    walk(mesh, e, first_way(mesh, e))
}

// How many binary digits a number has, and of 0 none.
pub(crate) fn digits(n: u32) -> u32
    ensures { result ≡ digits n }
{
    let mut rest = n;
    let mut digits: u32 = 0;
    while rest > 0 {
        rest /= 2;
        digits += 1;
    }
    digits
}
