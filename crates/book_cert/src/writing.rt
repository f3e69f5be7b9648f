// What is written for an instance: a solution and its certificate.
ghost use Rattle.std.specs.Prelude.{◌≡◌, ◌<◌, ◌≤◌, IfOk, IfErr};
ghost use Rattle.lawson_start.specs.Starts.{IsStartFault};
ghost use Rattle.plan_law.specs.Books.{IsBook};
ghost use Rattle.book_core.specs.Entries.{IsJustifiedRow};
ghost use Rattle.book_core.specs.HeldBooks.{book_of};
ghost use Rattle.cert_text.specs.Certs.{IsWritable};
ghost use Rattle.verify_core.specs.Faults.{IsShown};
ghost use Rattle.book_solve.specs.Solved.{IsSolvedBook};
ghost use Rattle.book_cert.specs.Written.{IsWritten};

use crate::{certificate_of, solution_of};
use book_core::Book;
use book_solve::{Order, solve_alone, solve_together};
use cert_text::Cert;
use lawson_start::StartFault;
use solution_json::Solution;
use std::alloc::Global;
use std::sync::{Arc, Wait};
use std::thread::Threads;
use tri_check::Instance;
use worker_crew::Gate;

/// A solution, and what shows its total and a bound.
#[derive(Debug, Drop)]
pub struct Written {
    pub solution: Solution,
    pub certificate: Cert,
}

// The solution and the certificate of a solved book.
fn written_of(
    alloc: Global,
    inst: &Arc<Instance>,
    order: Order,
    book: &Book,
) -> Result<Written, StartFault>
    requires { IsSolvedBook inst.now.value order book.now }
    ensures written { IfOk result (λ w. IsWritten inst.now.value order w.solution w.certificate) }
    ensures shown { IfOk result (λ w. IsShown inst.now.value w.solution w.certificate) }
    ensures writable { IfOk result (λ w. IsWritable w.certificate) }
    ensures err { IfErr result (IsStartFault inst.now.value.points inst.now.value.inputs order.flips) }
{
    let _ = inst.count();
    let _ = book.bound();
    let solution = solution_of(alloc, book)?;
    let certificate = certificate_of(alloc, book)?;
    Ok(Written {
        solution,
        certificate,
    })
}

/// The solution and the certificate that an order asks for, where no worker is asked for. A verifier finds no fault in them.
///
/// The time is that of the turns, and the memory that of the book and its copy in the certificate.
pub fn write_alone(alloc: Global, inst: Arc<Instance>, order: Order) -> Result<Written, StartFault>
    requires turns { order.turns ≤ 1_000_000 }
    requires workers { order.workers ≡ 0 }
    ensures written { IfOk result (λ w. IsWritten inst.value order w.solution w.certificate) }
    ensures shown { IfOk result (λ w. IsShown inst.value w.solution w.certificate) }
    ensures writable { IfOk result (λ w. IsWritable w.certificate) }
    ensures err { IfErr result (IsStartFault inst.value.points inst.value.inputs order.flips) }
{
    let book = solve_alone(alloc, inst.clone()?, order)?;
    written_of(alloc, &inst, order, &book)
}

/// The same by workers side by side. It waits for them. The gate is called before each turn.
pub fn write_together<R: Threads + Wait + Sync, G: Gate + Sync>(
    rt: &R,
    alloc: Global,
    inst: Arc<Instance>,
    order: Order,
    gate: &G,
) -> Result<Written, StartFault>
    requires turns { order.turns ≤ 1_000_000 }
    requires workers { (0 < order.workers) × (order.workers ≤ 16) }
    ensures written { IfOk result (λ w. IsWritten inst.value order w.solution w.certificate) }
    ensures shown { IfOk result (λ w. IsShown inst.value w.solution w.certificate) }
    ensures writable { IfOk result (λ w. IsWritable w.certificate) }
    ensures err { IfErr result (IsStartFault inst.value.points inst.value.inputs order.flips) }
{
    let book = solve_together(rt, alloc, inst.clone()?, order, gate)?;
    written_of(alloc, &inst, order, &book)
}
