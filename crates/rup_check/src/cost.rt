// What a line costs.
ghost use Rattle.std.specs.Prelude.{◌≡◌, ◌<◌, ◌^◌, length};
ghost use Rattle.log_law.specs.Logs.{line_cost as cost_of};

use crate::lists::Line;

/// The number of its literals and of its hints, and 3: what a line takes of a log's budget.
pub fn line_cost(line: &Line) -> u64
    ensures { result ≡ cost_of line.now }
{
    line.lits.len() as u64 + line.hints.len() as u64 + 3
}
