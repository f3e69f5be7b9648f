// What a look at a clause tells.
ghost use Rattle.std.specs.Prelude.{◌≡◌, slice_get};
ghost use Rattle.log_law.specs.Clauses.{IsClause};
ghost use Rattle.log_law.specs.Units.{remaining};
ghost use Rattle.log_law.specs.Trails.{literals};

use crate::steps::Steps;
use log_law::Lit;
use rup_check::Clause;

#[derive(Clone, Copy)]
pub(crate) enum Look {
    // All literals are false.
    Falsified,
    // All but this one, which is unassigned.
    Unit(Lit),
    // Neither.
    Still,
}

// The first literal of a clause that isn't false.
pub(crate) fn first_open(steps: &Steps, clause: &Clause) -> Option<Lit>
    requires { IsClause steps.now.variables clause.now }
    ensures { result ≡ slice_get (remaining (literals steps.now.steps) clause.now) 0 }
{
    for i in 0..clause.len() {
        let l = *clause.at(i);
        if !steps.is_false(l) {
            return Some(l);
        }
    }
    None
}
