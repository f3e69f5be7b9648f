// The rows of a certificate, one after the other.
ghost use Rattle.std.specs.Prelude.{◌≡◌, ◌↔◌, ◌<◌, length, IsTrue, IfErr, OnOk};
ghost use Rattle.flip_cnf.specs.HeldFrames.{IsHeldFrame};
ghost use Rattle.verify_core.specs.RowFaults.{OnWhy, IsAfter, IsPair, IsSoundRow, IsFirstWhy};
ghost use Rattle.verify_core.specs.Faults.{pair_before, AreSoundTo, IsRowRefusal};

use crate::end::check_end;
use crate::evidence::{check_evidence, check_lower};
use crate::fault::RowFault;
use crate::{No, RowWhy, VerifyFault};
use cert_text::RowList;
use flip_cnf::Frame;
use pair_rows::Row;
use std::alloc::Global;
use tri_check::Instance;

// Whether the one pair comes before the other.
fn is_after(before: Option<(u32, u32)>, i: u32, j: u32) -> bool
    ensures { IsTrue result ↔ IsAfter before (i, j) }
{
    match before {
        None => true,
        Some((a, b)) => a < i || (a == i && b < j),
    }
}

// Whether the pair is one of two inputs, the lower one first, and after that of the row before.
fn is_pair(inst: &Instance, before: Option<(u32, u32)>, i: u32, j: u32) -> bool
    ensures { IsTrue result ↔ IsPair inst.now.inputs before (i, j) }
{
    i < j && j < inst.inputs() && is_after(before, i, j)
}

// Whether the row is sound, after the row before.
fn check_row(
    alloc: Global,
    version: u32,
    inst: &Instance,
    frame: &Frame,
    before: Option<(u32, u32)>,
    row: &Row,
) -> Result<(), RowFault>
    requires { IsHeldFrame inst.now.points frame.now }
    ensures ok { OnOk result (IsSoundRow version inst.now.points inst.now.inputs frame.now before row.now) }
    ensures err { IfErr result (OnWhy (IsFirstWhy version inst.now.points inst.now.inputs frame.now before row.now)) }
{
    let _ = inst.count();
    if !is_pair(inst, before, row.i, row.j) {
        return Err(RowFault::Why(RowWhy::BadPair));
    }
    check_evidence(alloc, version, inst, frame, row.i, row.j, &row.evidence)?;
    check_lower(row.lower, &row.evidence)?;
    check_end(
        alloc, version, inst, frame, row.i, row.j, row.lower, &row.end,
    )
}

// The pair of the row before this place, where there is one.
fn pair_before(rows: &RowList, r: usize) -> Option<(u32, u32)>
    requires { r < length rows.now }
    ensures { result ≡ pair_before rows.now r }
{
    if r == 0 {
        return None;
    }
    let row = rows.at(r - 1);
    Some((row.i, row.j))
}

/// Whether all rows are sound, and each is after the one before.
pub fn check_rows(
    alloc: Global,
    version: u32,
    inst: &Instance,
    frame: &Frame,
    rows: &RowList,
) -> Result<(), VerifyFault>
    requires { IsHeldFrame inst.now.points frame.now }
    ensures ok { OnOk result (AreSoundTo version inst.now.points inst.now.inputs frame.now rows.now (length rows.now)) }
    ensures err { IfErr result (IsRowRefusal version inst.now.points inst.now.inputs frame.now rows.now) }
{
    for r in 0..rows.len() {
        let row = rows.at(r);
        match check_row(alloc, version, inst, frame, pair_before(rows, r), row) {
            Ok(()) => {}
            Err(RowFault::Why(why)) => {
                return Err(VerifyFault::No(No::RowWrong(row.i, row.j, why)));
            }
            Err(RowFault::OutOfMemory) => return Err(VerifyFault::OutOfMemory),
        }
    }
    Ok(())
}
