// Clauses of one and of two literals, and those of what a flip asks.
ghost use Rattle.std.specs.Prelude.{◌≡◌, ◌∷◌, [], map, IfOk, OnOk};
ghost use Rattle.formula_parts.specs.Building.{Takes, adding, asks};

use rup_check::{Clause, Cnf, Lit};
use std::alloc::{AllocError, Global};

/// The clause of one literal.
pub fn unit(alloc: Global, l: Lit) -> Result<Clause, AllocError>
    ensures { IfOk result (λ c. c ≡ l ∷ []) }
{
    let mut clause = Clause::make(alloc);
    clause.push(l)?;
    Ok(clause)
}

/// The clause of two literals, in this order.
pub fn pair(alloc: Global, l: Lit, m: Lit) -> Result<Clause, AllocError>
    ensures { IfOk result (λ c. c ≡ l ∷ m ∷ []) }
{
    let mut clause = Clause::make(alloc);
    clause.push(l)?;
    clause.push(m)?;
    Ok(clause)
}

/// Adds for each demand, in order, that it holds where a flip is made: the first literal says that it isn't.
pub fn add_asked(alloc: Global, cnf: &mut Cnf, unmade: Lit, lits: &Clause) -> Result<(), AllocError>
    requires { Takes cnf.old (map (asks unmade) lits.now) }
    ensures { OnOk result (cnf.new ≡ adding cnf.old (map (asks unmade) lits.now)) }
{
    for i in 0..lits.len() {
        let clause = pair(alloc, unmade, *lits.at(i))?;
        cnf.add(clause)?;
    }
    Ok(())
}
