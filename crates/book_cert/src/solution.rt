// The solution that the plan of a book is.
ghost use Rattle.std.specs.Prelude.{◌≡◌, IfOk};
ghost use Rattle.plan_law.specs.Plans.{schedules};
ghost use Rattle.plan_core.specs.HeldPlans.{HasSchedules};
ghost use Rattle.book_core.specs.HeldBooks.{now_of};
ghost use Rattle.book_cert.specs.Certificates.{IsSolutionOf};

use book_core::Book;
use edge_table::RoundsList;
use plan_core::Plan;
use solution_json::Solution;
use std::alloc::{AllocError, Global};

// The rounds of the lists of a plan.
fn lists_of(alloc: Global, plan: &Plan) -> Result<RoundsList, AllocError>
    ensures { IfOk result (λ lists. lists ≡ schedules plan.now.plan) }
{
    let _ = plan.total();
    let mut lists = RoundsList::make(alloc);
    let count = plan.inst().inputs();
    for t in 0..count {
        lists.push(plan.schedule(t)?)?;
    }
    Ok(lists)
}

/// The solution that the plan of a book is: for each input its rounds, which lead to the centre. Time and memory grow with the flips.
pub fn solution_of(alloc: Global, book: &Book) -> Result<Solution, AllocError>
    ensures solution { IfOk result (IsSolutionOf book.now) }
    ensures schedules { HasSchedules book.now.problem (now_of book.now).plan }
{
    let plan = book.plan();
    let _ = plan.total();
    let uid = plan.inst().uid().copy()?;
    let lists = lists_of(alloc, plan)?;
    Ok(Solution { uid, lists })
}
