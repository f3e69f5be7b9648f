// The pairs of segments that cross.
ghost use Rattle.std.specs.Prelude.{◌<◌, ◌+◌, ◌≤◌, length, IfOk, OnOk};
ghost use Rattle.formula_parts.specs.Found.{AreFound, IsCrossing};
ghost use Rattle.formula_parts.specs.Lists.{AreSegments};
ghost use Rattle.formula_parts.specs.Tables.{AreTables};

use crate::tables::{Tables, crosses};
use edge_table::Edge;
use std::alloc::{AllocError, Global};
use tri_check::Instance;

// Adds the segments with the numbers `i` and `j`, where they cross.
fn add_crossing(
    inst: &Instance,
    tables: &Tables,
    segments: &[Edge],
    pairs: &mut Vec<(u32, u32)>,
    i: u32,
    j: u32,
) -> Result<(), AllocError>
    requires order { i < j }
    requires within { j < length segments.now }
    requires tables { AreTables inst.now.points tables.now.turns.items tables.now.empties.items }
    requires segments { AreSegments inst.now.points segments.now }
    requires found { AreFound (IsCrossing inst.now.points segments.now) 4096 pairs.old.items i j }
    ensures { OnOk result (AreFound (IsCrossing inst.now.points segments.now) 4096 pairs.new.items i (j + 1)) }
{
    if !crosses(inst, tables, segments[i as usize], segments[j as usize]) {
        return Ok(());
    }
    pairs.push((i, j))?;
    Ok(())
}

// Adds the pairs whose earlier segment has the number `i`.
fn add_from(
    inst: &Instance,
    tables: &Tables,
    segments: &[Edge],
    pairs: &mut Vec<(u32, u32)>,
    i: u32,
) -> Result<(), AllocError>
    requires within { i < length segments.now }
    requires tables { AreTables inst.now.points tables.now.turns.items tables.now.empties.items }
    requires segments { AreSegments inst.now.points segments.now }
    requires found { AreFound (IsCrossing inst.now.points segments.now) 4096 pairs.old.items i 0 }
    ensures { OnOk result (AreFound (IsCrossing inst.now.points segments.now) 4096 pairs.new.items (i + 1) 0) }
{
    for j in i + 1..segments.len() as u32 {
        add_crossing(inst, tables, segments, pairs, i, j)?;
    }
    Ok(())
}

// All pairs of segments that cross, the earlier one first, in order.
pub(crate) fn crossings(
    alloc: Global,
    inst: &Instance,
    tables: &Tables,
    segments: &[Edge],
) -> Result<Vec<(u32, u32)>, AllocError>
    requires tables { AreTables inst.now.points tables.now.turns.items tables.now.empties.items }
    requires segments { AreSegments inst.now.points segments.now }
    ensures { IfOk result (λ found. AreFound (IsCrossing inst.now.points segments.now) 4096 found.items (length segments.now) 0) }
{
    let mut found = Vec::new(alloc);
    for i in 0..segments.len() as u32 {
        add_from(inst, tables, segments, &mut found, i)?;
    }
    Ok(found)
}
