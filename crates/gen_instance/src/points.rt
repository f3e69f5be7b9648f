// The points by a seed.
ghost use Rattle.std.specs.Prelude.{◌≡◌, ◌≤◌, ◌<◌, length, IfOk};
ghost use Rattle.sweep_law.specs.Boundaries.{CanBeSwept};
ghost use Rattle.gen_instance.specs.Generated.{point_by, first_points, points_of};

use geo_orient::Point;
use rand_core::utils::NextWord;
use rand_pcg::Pcg32;
use std::alloc::{AllocError, Global};
use tri_check::PointList;

// The point with a number, by two words.
fn point_by(i: u32, x: u32, y: u32) -> Point
    requires { i < 16_384 }
    ensures { result ≡ point_by i x y }
{
    Point {
        x: i64::from(x % 1_048_576),
        y: i64::from(1_000 * i + y % 1_000),
    }
}

// Three points that aren't on one line.
fn first_points(alloc: Global) -> Result<PointList, AllocError>
    ensures { IfOk result (λ made. made ≡ first_points) }
{
    PointList::of(
        alloc,
        &[
            Point { x: 0, y: 0 },
            Point { x: 1, y: 1_000 },
            Point { x: 0, y: 2_000 },
        ],
    )
}

// So many points.
pub(crate) fn points_of(alloc: Global, seed: u64, count: u32) -> Result<PointList, AllocError>
    requires low { 3 ≤ count }
    requires high { count ≤ 16_384 }
    ensures same { IfOk result (λ points. points ≡ points_of seed count) }
    ensures count { IfOk result (λ points. length points ≡ count) }
    ensures swept { IfOk result CanBeSwept }
{
    let mut words = Pcg32::new(seed, 0);
    let mut points = first_points(alloc)?;
    for i in 3..count {
        let x = words.next_word();
        let y = words.next_word();
        points.push(point_by(i, x, y))?;
    }
    Ok(points)
}
