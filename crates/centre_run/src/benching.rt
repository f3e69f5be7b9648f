// The command `bench`.
ghost use Rattle.std.specs.Prelude.{◌≡◌, ◌≤◌, IfOk, IsErrOf, string_bytes};
ghost use Rattle.tri_check.specs.Problems.{IsProblem};
ghost use Rattle.book_core.specs.HeldBooks.{IsBelowPlans, now_of};
ghost use Rattle.book_solve.specs.Solved.{IsSolvedBook};
ghost use Rattle.plan_law.specs.Plans.{plan_total};
ghost use Rattle.plan_law.specs.Books.{bound};
ghost use Rattle.printed_lines.specs.Lines.{opening_line};
ghost use Rattle.centre_run.specs.Orders.{bench_order};
ghost use Rattle.centre_run.specs.Runs.{BookSays, BenchSays};

use crate::reply::{Quiet, Reply, with_line};
use crate::status::Status;
use book_core::Book;
use book_solve::{Order, solve_alone};
use gen_instance::generate;
use lawson_start::StartFault;
use printed_lines::{bad_text, opening_text};
use std::alloc::Global;
use std::sync::Arc;
use tri_check::{CheckFault, Instance};

// How many improvers take a turn.
const TURNS: u32 = 4;

// What is asked of the solver.
fn bench_order(instance: &Instance, seed: u64) -> Order
    ensures { result ≡ bench_order instance.now seed }
{
    let points = u64::from(instance.count());
    Order {
        flips: points * (points - 1) / 2,
        turns: TURNS,
        seed,
        workers: 0,
    }
}

// The totals and the bound of a book.
fn book_reply(alloc: Global, book: &Book) -> Result<Reply, Quiet>
    ensures status { IfOk result (λ r. r.status ≡ Status.Done) }
    ensures line { IfOk result (λ r. string_bytes r.line ≡ opening_line (plan_total book.now.opening) (plan_total (now_of book.now).plan) (bound (now_of book.now))) }
    ensures below { IsBelowPlans book.now.problem (bound (now_of book.now)) }
    ensures read { IsErrOf result Quiet.ReadFault → ⊥ }
    ensures write { IsErrOf result Quiet.WriteFault → ⊥ }
{
    with_line(
        Status::Done,
        opening_text(
            alloc,
            book.opening_total(),
            book.plan().total(),
            u128::from(book.bound()),
        ),
    )
}

// What `bench` says of an instance.
fn bench_instance(alloc: Global, instance: Arc<Instance>, seed: u64) -> Result<Reply, Quiet>
    ensures says { IfOk result (λ r. BookSays instance.value seed r.status (string_bytes r.line)) }
    ensures problem { IsProblem instance.value.points instance.value.inputs }
    ensures read { IsErrOf result Quiet.ReadFault → ⊥ }
    ensures write { IsErrOf result Quiet.WriteFault → ⊥ }
{
    let _ = instance.count();
    let order = bench_order(&instance, seed);
    match solve_alone(alloc, instance, order) {
        Ok(book) => book_reply(alloc, &book),
        Err(StartFault::OutOfMemory) => Err(Quiet::Memory),
        // No run has more flips than there are pairs of points.
        Err(StartFault::FlipBudget(_)) => unreachable!(),
    }
}

// What `bench` says of the instance that it generates.
pub(crate) fn bench_reply(
    alloc: Global,
    seed: u64,
    points: u32,
    inputs: u32,
) -> Result<Reply, Quiet>
    requires points { (3 ≤ points) × (points ≤ 16_384) }
    requires inputs { (1 ≤ inputs) × (inputs ≤ 256) }
    ensures says { IfOk result (λ r. BenchSays seed points inputs r.status (string_bytes r.line)) }
    ensures read { IsErrOf result Quiet.ReadFault → ⊥ }
    ensures write { IsErrOf result Quiet.WriteFault → ⊥ }
{
    let raw = generate(alloc, seed, points, inputs)?;
    match Instance::check(alloc, raw) {
        Ok(instance) => bench_instance(alloc, instance, seed),
        Err(CheckFault::Bad(bad)) => with_line(Status::Refused, bad_text(alloc, bad)),
        Err(CheckFault::OutOfMemory) => Err(Quiet::Memory),
    }
}
