// Small formulas: unit steps, a conflict, going back, and clauses that are learnt.
ghost use Rattle.std.specs.Prelude.{◌≡◌, ◌∷◌, [], true, IfOk};
ghost use Rattle.log_law.specs.Clauses.{IsVariable};

use super::*;
use std::test::Fail;

// The literal of a signed variable.
fn lit(n: i32) -> Lit {
    Lit {
        var: n.unsigned_abs(),
        on: n > 0,
    }
}

// The number of variables.
fn vars(state: &State) -> u32
    ensures { result ≡ state.now.variables }
{
    state.table.steps().vars()
}

fn has(state: &State, var: u32) -> bool
    ensures { result ≡ true → IsVariable state.now.variables var }
{
    1 <= var && var <= vars(state)
}

// The clauses of two signed variables each, but for those that don't fit.
fn pairs(alloc: Global, vars: u32, signed: &[(i32, i32)]) -> Result<Cnf, AllocError> {
    let mut cnf = Cnf::make(alloc, vars);
    for (a, b) in signed {
        add_pair(alloc, &mut cnf, lit(*a), lit(*b))?;
    }
    Ok(cnf)
}

fn pair(alloc: Global, a: Lit, b: Lit) -> Result<Clause, AllocError>
    ensures { IfOk result (λ made. made ≡ a ∷ (b ∷ [])) }
{
    let mut made = Clause::make(alloc);
    made.push(a)?;
    made.push(b)?;
    Ok(made)
}

fn add_pair(alloc: Global, cnf: &mut Cnf, a: Lit, b: Lit) -> Result<(), AllocError> {
    let count = cnf.vars();
    if a.var < 1 || a.var > count || b.var < 1 || b.var > count || a.var == b.var {
        return Ok(());
    }
    if cnf.len() < 1000 {
        cnf.add(pair(alloc, a, b)?)?;
    }
    Ok(())
}

// Decides a literal, where the state comes to rest and the variable is unassigned.
fn decides(state: &mut State, n: i32) -> bool {
    let l = lit(n);
    match state.spread() {
        Some(_) => false,
        None => {
            if !has(state, l.var) {
                return false;
            }
            match state.value(l.var) {
                Some(_) => false,
                None => {
                    state.decide(l);
                    true
                },
            }
        },
    }
}

// The clause of one literal.
fn unit(alloc: Global, l: Lit) -> Result<Clause, AllocError>
    ensures { IfOk result (λ made. made ≡ l ∷ []) }
{
    let mut made = Clause::make(alloc);
    made.push(l)?;
    Ok(made)
}

// Learns a unit clause at level 0.
fn learns_unit(alloc: Global, state: &mut State, n: i32) -> Result<Option<u32>, AllocError> {
    let l = lit(n);
    let clause = unit(alloc, l)?;
    if state.level() > 0 || state.table.len() > 1000 || !has(state, l.var) {
        return Ok(None);
    }
    match state.value(l.var) {
        Some(_) => Ok(None),
        None => {
            let id = state.learn(clause)?;
            Ok(Some(id))
        },
    }
}

fn goes_back(state: &mut State, level: u32) {
    if level <= state.level() {
        state.back(level);
    }
}

fn value(state: &State, var: u32) -> Option<bool> {
    if has(state, var) {
        state.value(var)
    } else {
        None
    }
}

fn level_at(state: &State, var: u32) -> Option<u32> {
    if has(state, var) {
        state.level_of(var)
    } else {
        None
    }
}

fn reason_at(state: &State, var: u32) -> Option<u32> {
    if has(state, var) {
        state.reason(var)
    } else {
        None
    }
}

fn place(state: &State, var: u32) -> Option<u32> {
    if has(state, var) {
        state.place(var)
    } else {
        None
    }
}

fn var_at(state: &State, i: u32) -> u32 {
    if i < state.trail_len() {
        state.trail_at(i).var
    } else {
        0
    }
}

fn clause_len(state: &State, id: u32) -> usize {
    if 1 <= id && id as usize <= state.table.len() {
        state.clause(id).len()
    } else {
        0
    }
}

// 1 leads to 2, then to 3 and 4, and 4 to the opposite of 2.
fn chain(alloc: Global) -> Result<State, AllocError> {
    let cnf = pairs(alloc, 5, &[(-1, 2), (-2, 3), (-3, 4), (-4, -2)])?;
    State::of(alloc, &cnf)
}

#[test]
fn three_steps_and_a_conflict(rt: HostRuntime) -> Result<(), Fail> {
    let mut state = chain(rt.alloc())?;
    assert!(rt; state.spread().is_none());
    assert_eq!(rt; state.trail_len(), 0);
    assert!(rt; decides(&mut state, 1));
    assert!(rt; state.spread().is_some());
    assert_eq!(rt; state.level(), 1);
    assert_eq!(rt; state.trail_len(), 4);
    assert_eq!(rt; var_at(&state, 0), 1);
    assert_eq!(rt; var_at(&state, 1), 2);
    assert!(rt; place(&state, 1) == Some(0));
    assert!(rt; place(&state, 2) == Some(1));
    assert!(rt; place(&state, 5).is_none());
    assert!(rt; reason_at(&state, 1).is_none());
    assert!(rt; reason_at(&state, 2) == Some(1));
    assert!(rt; level_at(&state, 3) == Some(1));
    assert!(rt; value(&state, 3) == Some(true));
    assert!(rt; value(&state, 5).is_none());
    Ok(())
}

#[test]
fn back_keeps_the_lower_level(rt: HostRuntime) -> Result<(), Fail> {
    let mut state = chain(rt.alloc())?;
    assert!(rt; decides(&mut state, 5));
    assert!(rt; decides(&mut state, 3));
    assert!(rt; state.spread().is_none());
    assert_eq!(rt; state.trail_len(), 5);
    goes_back(&mut state, 1);
    assert_eq!(rt; state.level(), 1);
    assert_eq!(rt; state.trail_len(), 1);
    assert!(rt; place(&state, 5) == Some(0));
    assert!(rt; place(&state, 3).is_none());
    assert!(rt; value(&state, 5) == Some(true));
    assert!(rt; value(&state, 3).is_none());
    assert!(rt; state.spread().is_none());
    Ok(())
}

#[test]
fn a_learnt_unit_clause_is_asserted(rt: HostRuntime) -> Result<(), Fail> {
    let mut state = chain(rt.alloc())?;
    assert!(rt; decides(&mut state, 1));
    assert!(rt; state.spread().is_some());
    goes_back(&mut state, 0);
    assert!(rt; learns_unit(rt.alloc(), &mut state, -2)? == Some(5));
    assert_eq!(rt; clause_len(&state, 5), 1);
    assert!(rt; state.spread().is_none());
    assert!(rt; value(&state, 2) == Some(false));
    assert!(rt; reason_at(&state, 2) == Some(5));
    assert!(rt; value(&state, 1) == Some(false));
    assert!(rt; level_at(&state, 1) == Some(0));
    Ok(())
}

// The first literal of the first clause.
fn first_of(clauses: &[Clause]) -> Option<Lit> {
    match clauses.first() {
        Some(clause) => if clause.is_empty() {
            None
        } else {
            Some(*clause.at(0))
        },
        None => None,
    }
}

#[test]
fn the_last_clauses_are_given_away(rt: HostRuntime) -> Result<(), Fail> {
    let cnf = pairs(rt.alloc(), 3, &[(1, 2), (-1, 3), (2, 3)])?;
    let count = cnf.len();
    let state = State::of(rt.alloc(), &cnf)?;
    let last = state.into_clauses(count.min(2))?;
    assert_eq!(rt; last.len(), 1);
    assert_eq!(rt; first_of(&last), Some(lit(2)));
    Ok(())
}
