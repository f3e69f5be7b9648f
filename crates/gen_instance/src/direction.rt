// Directions of sweeps, and how far points lie along them.
ghost use Rattle.std.specs.Prelude.{◌≡◌, ◌≤◌, ◌^◌, unsigned_abs};
ghost use Rattle.rand_core.specs.Steps.{first_words};
ghost use Rattle.geo_orient.specs.Reach.{IsInReach};
ghost use Rattle.sweep_law.specs.Sweeps.{along, aside};
ghost use Rattle.sweep_law.specs.Boundaries.{IsDirection};
ghost use Rattle.gen_instance.specs.Generated.{part_by, direction_by, direction_of};

use geo_orient::Point;
use rand_core::utils::NextWord;
use rand_pcg::Pcg32;

// A direction of a sweep.
#[derive(Clone, Copy)]
pub(crate) struct Direction {
    pub a: i64,
    pub b: i64,
}

fn part(word: u32) -> i64
    ensures { result ≡ part_by word }
{
    i64::from(word % 1001) - 500
}

fn direction_by(v: u32, w: u32) -> Direction
    ensures same { result ≡ direction_by v w }
    ensures bounds { IsDirection result.a result.b }
{
    let a = part(v);
    let b = part(w);
    if a == 0 && b == 0 {
        Direction { a, b: 1 }
    } else {
        Direction { a, b }
    }
}

// The direction of the input with a number, by the first two words of its stream.
pub(crate) fn direction_of(seed: u64, t: u32) -> Direction
    ensures same { result ≡ direction_of seed t }
    ensures bounds { IsDirection result.a result.b }
{
    let mut words = Pcg32::new(seed, u64::from(t) + 1);
    let v = words.next_word();
    let w = words.next_word();
    direction_by(v, w)
}

// How far a point lies along a direction.
pub(crate) fn along(direction: Direction, p: Point) -> i64
    requires direction { IsDirection direction.a direction.b }
    requires reach { IsInReach p }
    ensures { result ≡ along direction.a direction.b p }
{
    direction.a * p.x + direction.b * p.y
}

// How far a point lies to the right of a direction.
pub(crate) fn aside(direction: Direction, p: Point) -> i64
    requires direction { IsDirection direction.a direction.b }
    requires reach { IsInReach p }
    ensures { result ≡ aside direction.a direction.b p }
{
    direction.b * p.x - direction.a * p.y
}
