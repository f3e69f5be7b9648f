// Sizes of pruned formulas of small polygons.
ghost use Rattle.std.specs.Prelude.{◌<◌, ◌≤◌};

use crate::polygons::{HEXAGON, PENTAGON, SQUARE, expect_three, parabola, polygon};
use flip_cnf::Frame;
use std::alloc::{AllocError, Global};
use std::process::Abort;
use std::test::Fail;
use tri_check::Instance;

// The size of the pruned formula of `k` rounds from input 0 to another one or itself.
fn size(
    rt: &impl Abort,
    alloc: Global,
    inst: &Instance,
    to: u32,
    k: u32,
) -> Result<Option<u64>, AllocError>
    requires to { to < 3 }
    requires rounds { k ≤ 400_000 }
{
    expect_three(rt, inst);
    let frame = Frame::of(alloc, inst)?;
    frame.size2(inst, 0, to, k)
}

// The size for an input and a number of rounds is as wanted.
fn must_count(
    rt: &impl Abort,
    alloc: Global,
    inst: &Instance,
    to: u32,
    k: u32,
    wanted: Option<u64>,
) -> Result<(), Fail> {
    assert!(rt; to < 3 && k <= 400_000);
    let found = size(rt, alloc, inst, to, k)?;
    if found == wanted {
        Ok(())
    } else {
        Err(Fail::new(format_args!("{found:?} for {k} rounds to {to}, where {wanted:?} is wanted")))
    }
}

// For each row the corners, the input that is gone to, the number of rounds, and the size.
const SMALL: [(&[(i64, i64)], u32, u32, u64); 5] = [
    (&SQUARE, 1, 0, 10),
    (&SQUARE, 1, 1, 30),
    (&PENTAGON, 1, 1, 26),
    (&PENTAGON, 1, 2, 66),
    (&HEXAGON, 1, 2, 59),
];

const EQUAL: [(&[(i64, i64)], u32, u32, u64); 4] = [
    (&SQUARE, 0, 2, 55),
    (&SQUARE, 2, 2, 55),
    (&SQUARE, 0, 10_811, 399_988),
    (&SQUARE, 0, 10_812, 400_025),
];

fn must_count_each(
    rt: &impl Abort,
    alloc: Global,
    rows: &[(&[(i64, i64)], u32, u32, u64)],
) -> Result<(), Fail> {
    for row in rows {
        let inst = polygon(alloc, row.0)?;
        must_count(rt, alloc, &inst, row.1, row.2, Some(row.3))?;
    }
    Ok(())
}

#[test]
fn pruned_formulas_of_small_polygons_are_counted(rt: HostRuntime) -> Result<(), Fail> {
    must_count_each(&rt, rt.alloc(), &SMALL)
}

#[test]
fn pruned_formulas_of_equal_inputs_are_counted(rt: HostRuntime) -> Result<(), Fail> {
    must_count_each(&rt, rt.alloc(), &EQUAL)
}

// Points of a parabola, so many rounds, and the size.
fn must_count_many(
    rt: &impl Abort,
    alloc: Global,
    count: u32,
    k: u32,
    wanted: Option<u64>,
) -> Result<(), Fail> {
    let inst = parabola(alloc, count)?;
    must_count(rt, alloc, &inst, 1, k, wanted)
}

#[test]
fn pruned_formulas_of_many_points_are_counted(rt: HostRuntime) -> Result<(), Fail> {
    must_count_many(&rt, rt.alloc(), 20, 5, Some(3_650))?;
    must_count_many(&rt, rt.alloc(), 65, 6, None)
}
