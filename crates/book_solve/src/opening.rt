// The opening of an instance as a book.
ghost use Rattle.std.specs.Prelude.{◌≡◌, [], IfOk, IfErr};
ghost use Rattle.lawson_start.specs.Starts.{IsStartFault};
ghost use Rattle.book_core.specs.HeldBooks.{opened};
ghost use Rattle.book_solve.specs.Solved.{IsOpeningPlan};

use book_core::Book;
use lawson_start::{Start, StartFault, start};
use plan_core::Plan;
use std::alloc::Global;
use std::sync::Arc;
use tri_check::Instance;

// The runs of the inputs as a plan.
fn opening_plan(alloc: Global, inst: Arc<Instance>, flips: u64) -> Result<Plan, StartFault>
    ensures problem { IfOk result (λ p. p.problem ≡ inst.value) }
    ensures opens { IfOk result (λ p. IsOpeningPlan inst.value flips p.plan) }
    ensures err { IfErr result (IsStartFault inst.value.points inst.value.inputs flips) }
{
    let Start { centre, tracks } = start(alloc, &inst, flips)?;
    let plan = Plan::opening(alloc, inst, centre, tracks)?;
    let _ = plan.total();
    Ok(plan)
}

/// A book that is opened with the first centre of an instance, to which the run of each input leads. No run may have more flips than are allowed.
pub fn open(alloc: Global, inst: Arc<Instance>, flips: u64) -> Result<Book, StartFault>
    ensures problem { IfOk result (λ b. b.problem ≡ inst.value) }
    ensures opens { IfOk result (λ b. IsOpeningPlan inst.value flips b.opening) }
    ensures empty { IfOk result (λ b. b.journal ≡ []) }
    ensures err { IfErr result (IsStartFault inst.value.points inst.value.inputs flips) }
{
    let plan = opening_plan(alloc, inst, flips)?;
    Ok(Book::opening(alloc, plan)?)
}
