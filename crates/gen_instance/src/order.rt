// Numbers of points in the order of a sweep.
ghost use Rattle.std.specs.Prelude.{◌≡◌, ◌<◌, ◌≤◌, ℕ, length, Contains, map, IfOk};
ghost use Rattle.tri_theory.specs.Points.{point};
ghost use Rattle.sweep_law.specs.Sweeps.{IsSweepOrder};
ghost use Rattle.sweep_law.specs.Boundaries.{IsDirection, CanBeSwept};
ghost use Rattle.gen_instance.specs.Orders.{key_of, AreNamed, AreInOrder};

use crate::direction::{Direction, along, aside};
use geo_orient::Point;
use std::alloc::{AllocError, Global};

// Where a point stands in a sweep, and its number. A sweep passes points in the order of their keys.
#[derive(Clone, Copy, PartialEq, Eq, PartialOrd, Ord)]
struct Key {
    along: i64,
    aside: i64,
    number: u32,
}

fn key_of(points: &[Point], direction: Direction, number: u32) -> Key
    requires points { CanBeSwept points.now }
    requires direction { IsDirection direction.a direction.b }
    requires named { number < length points.now }
    ensures { result ≡ key_of points.now direction number }
{
    let p = points[number as usize];
    Key {
        along: along(direction, p),
        aside: aside(direction, p),
        number,
    }
}

fn keys_of(
    alloc: Global,
    points: &[Point],
    direction: Direction,
    numbers: &[u32],
) -> Result<Vec<Key>, AllocError>
    requires points { CanBeSwept points.now }
    requires direction { IsDirection direction.a direction.b }
    requires named { AreNamed points.now numbers.now }
    ensures { IfOk result (λ keys. keys.items ≡ map (key_of points.now direction) numbers.now) }
{
    let mut keys = Vec::with_capacity(alloc, numbers.len())?;
    for number in numbers {
        keys.push(key_of(points, direction, *number))?;
    }
    Ok(keys)
}

fn numbers_of(alloc: Global, keys: &[Key]) -> Result<Vec<u32>, AllocError>
    ensures { IfOk result (λ numbers. numbers.items ≡ map (λ k. k.number) keys.now) }
{
    let mut numbers = Vec::with_capacity(alloc, keys.len())?;
    for key in keys {
        numbers.push(key.number)?;
    }
    Ok(numbers)
}

// These numbers in the order of the sweep, each once. Takes the time of sorting them.
pub(crate) fn in_order(
    alloc: Global,
    points: &[Point],
    direction: Direction,
    numbers: &[u32],
) -> Result<Vec<u32>, AllocError>
    requires points { CanBeSwept points.now }
    requires direction { IsDirection direction.a direction.b }
    requires named { AreNamed points.now numbers.now }
    ensures { IfOk result (λ ordered. AreInOrder points.now direction.a direction.b numbers.now ordered.items) }
{
    let mut keys = keys_of(alloc, points, direction, numbers)?;
    keys.sort_unstable();
    keys.dedup();
    numbers_of(alloc, keys.as_slice())
}

// The numbers of all points in the order of the sweep.
pub(crate) fn order_of(
    alloc: Global,
    points: &[Point],
    direction: Direction,
) -> Result<Vec<u32>, AllocError>
    requires points { CanBeSwept points.now }
    requires count { length points.now ≤ 16_384 }
    requires direction { IsDirection direction.a direction.b }
    ensures { IfOk result (λ order. IsSweepOrder points.now direction.a direction.b order.items) }
{
    let mut numbers = Vec::with_capacity(alloc, points.len())?;
    for i in 0..points.len() as u32 {
        numbers.push(i)?;
    }
    in_order(alloc, points, direction, numbers.as_slice())
}
