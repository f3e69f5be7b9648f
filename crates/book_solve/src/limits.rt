// The limits of an order's turns.
ghost use Rattle.std.specs.Prelude.{◌≡◌, ◌≤◌, length};
ghost use Rattle.worker_pool.specs.Jobs.{MayBeInputs, AreLimits};
ghost use Rattle.book_solve.specs.Solved.{log_budget, limits_of};

use crate::Order;
use tri_check::Instance;
use worker_pool::Limits;

// The greatest cost of one log, and of the logs of all pairs.
const MOST_FOR_ONE: u64 = 50_000;

const MOST_FOR_ALL: u64 = 20_000_000;

/// What the log of one search may cost, in literals and hints with 3 for each line, where there are so many inputs.
pub fn log_budget(inputs: u32) -> u64
    requires { MayBeInputs inputs }
    ensures budget { result ≡ log_budget inputs }
    ensures small { result ≤ 50_000 }
{
    let m = u64::from(inputs);
    let pairs = m * (m - 1) / 2;
    (MOST_FOR_ALL / pairs.max(1)).min(MOST_FOR_ONE)
}

pub(crate) fn limits_of(inst: &Instance, order: Order) -> Limits
    requires { order.turns ≤ 1_000_000 }
    ensures limits { result ≡ limits_of inst.now order }
    ensures within { AreLimits result }
    ensures inputs { MayBeInputs (length inst.now.inputs) }
{
    let _ = inst.count();
    Limits {
        seed: order.seed,
        turns: order.turns,
        budget: log_budget(inst.inputs()),
    }
}
