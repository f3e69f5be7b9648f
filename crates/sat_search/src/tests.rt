// Small formulas: models, refutations that the checker accepts, and a log that passes its budget.
ghost use Rattle.std.specs.Prelude.{◌≡◌, IfOk, OnSome, IfSome};
ghost use Rattle.log_law.specs.Clauses.{IsClause};

use super::*;
use log_law::Lit;
use rup_check::{Clause, Cnf, Truth, check, check_steps};
use std::alloc::{AllocError, Global};
use std::process::Abort;
use std::test::Fail;

// The clause of signed variables, where these ascend.
fn clause(alloc: Global, vars: u32, lits: &[i32]) -> Result<Option<Clause>, AllocError>
    ensures { IfOk result (λ made. IfSome made (IsClause vars)) }
{
    let mut made = Clause::make(alloc);
    let mut last = 0;
    for n in lits {
        let var = n.unsigned_abs();
        if var <= last || var > vars {
            return Ok(None);
        }
        made.push(Lit { var, on: *n > 0 })?;
        last = var;
    }
    Ok(Some(made))
}

// Adds a clause of signed variables that ascend.
pub(crate) fn add(alloc: Global, cnf: &mut Cnf, lits: &[i32]) -> Result<(), Fail> {
    if let Some(made) = clause(alloc, cnf.vars(), lits)? {
        if cnf.len() < 1000 {
            cnf.add(made)?;
        }
    }
    Ok(())
}

// Three pigeons in two holes: variable 2 p - 1 says that pigeon p sits in the first hole, and 2 p in the second.
fn pigeons(alloc: Global) -> Result<Cnf, Fail> {
    let mut cnf = Cnf::make(alloc, 6);
    add(alloc, &mut cnf, &[1, 2])?;
    add(alloc, &mut cnf, &[3, 4])?;
    add(alloc, &mut cnf, &[5, 6])?;
    add(alloc, &mut cnf, &[-1, -3])?;
    add(alloc, &mut cnf, &[-1, -5])?;
    add(alloc, &mut cnf, &[-3, -5])?;
    add(alloc, &mut cnf, &[-2, -4])?;
    add(alloc, &mut cnf, &[-2, -6])?;
    add(alloc, &mut cnf, &[-4, -6])?;
    Ok(cnf)
}

// Whether the truth values satisfy each clause.
fn satisfies(cnf: &Cnf, truth: &Truth) -> bool {
    for i in 0..cnf.len() {
        let clause = cnf.clause(i);
        let mut met = false;
        for k in 0..clause.len() {
            let l = clause.at(k);
            let place = (l.var as usize).saturating_sub(1);
            met = met || (place < truth.len() && *truth.at(place) == l.on);
        }
        if !met {
            return false;
        }
    }
    true
}

// What a search comes to: its kind, how many lines or values there are, and whether they are right.
pub(crate) fn told(
    alloc: Global,
    cnf: &Cnf,
    budget: u64,
) -> Result<(&'static str, usize, bool), Fail> {
    if cnf.len() > 400_000 || budget > 1_000_000 {
        return Ok(("", 0, false));
    }
    match solve(alloc, cnf, budget)? {
        Answer::Sat(truth) => Ok(("sat", truth.len(), satisfies(cnf, &truth))),
        Answer::Refuted(log) => Ok(("refuted", log.len(), check(alloc, cnf, &log).is_ok())),
        Answer::Spent(log) => Ok(("spent", log.len(), check_steps(alloc, cnf, &log).is_ok())),
    }
}

#[test]
fn three_pigeons_do_not_sit_in_two_holes(rt: HostRuntime) -> Result<(), Fail> {
    let cnf = pigeons(rt.alloc())?;
    assert_eq!(rt; cnf.len(), 9);
    assert_eq!(rt; told(rt.alloc(), &cnf, 1_000)?, ("refuted", 2, true));
    Ok(())
}

#[test]
fn a_small_budget_is_passed_by_one_line(rt: HostRuntime) -> Result<(), Fail> {
    let cnf = pigeons(rt.alloc())?;
    assert_eq!(rt; told(rt.alloc(), &cnf, 1)?, ("spent", 1, true));
    Ok(())
}

#[test]
fn two_pigeons_sit_in_two_holes(rt: HostRuntime) -> Result<(), Fail> {
    let mut cnf = Cnf::make(rt.alloc(), 4);
    add(rt.alloc(), &mut cnf, &[1, 2])?;
    add(rt.alloc(), &mut cnf, &[3, 4])?;
    add(rt.alloc(), &mut cnf, &[-1, -3])?;
    add(rt.alloc(), &mut cnf, &[-2, -4])?;
    assert_eq!(rt; told(rt.alloc(), &cnf, 1_000)?, ("sat", 4, true));
    Ok(())
}

#[test]
fn an_empty_clause_is_refuted_at_once(rt: HostRuntime) -> Result<(), Fail> {
    let mut cnf = Cnf::make(rt.alloc(), 2);
    add(rt.alloc(), &mut cnf, &[1, 2])?;
    add(rt.alloc(), &mut cnf, &[])?;
    assert_eq!(rt; told(rt.alloc(), &cnf, 4)?, ("refuted", 1, true));
    assert_eq!(rt; told(rt.alloc(), &cnf, 3)?, ("spent", 1, true));
    Ok(())
}

#[test]
fn no_clause_has_a_model(rt: HostRuntime) -> Result<(), Fail> {
    let cnf = Cnf::make(rt.alloc(), 3);
    assert_eq!(rt; told(rt.alloc(), &cnf, 0)?, ("sat", 3, true));
    let none = Cnf::make(rt.alloc(), 0);
    assert_eq!(rt; told(rt.alloc(), &none, 0)?, ("sat", 0, true));
    Ok(())
}
