// The order of decisions, of which no clause speaks: variables of recent conflicts first, each with its last value.
ghost use Rattle.std.specs.Prelude.{◌≡◌, [], ◌∷◌, false, true, IfOk};

use super::*;
use log_law::Lit;
use rup_check::Clause;
use std::test::Fail;

// The clause that one of two variables is true.
fn either(alloc: Global) -> Result<Clause, AllocError>
    ensures { IfOk result (λ made. made ≡ record { var = 1; on = true } ∷ (record { var = 2; on = true } ∷ [])) }
{
    let mut made = Clause::make(alloc);
    made.push(Lit { var: 1, on: true })?;
    made.push(Lit { var: 2, on: true })?;
    Ok(made)
}

// The clause that the second variable is false.
fn not_second(alloc: Global) -> Result<Clause, AllocError>
    ensures { IfOk result (λ made. made ≡ record { var = 2; on = false } ∷ []) }
{
    let mut made = Clause::make(alloc);
    made.push(Lit { var: 2, on: false })?;
    Ok(made)
}

#[test]
fn undone_variables_come_by_activity(rt: HostRuntime) -> Result<(), Fail> {
    let alloc = rt.alloc();
    let mut cnf = Cnf::make(alloc, 2);
    cnf.add(either(alloc)?)?;
    let mut state = State::of(alloc, &cnf)?;
    let mut order = Order::make(alloc, 2)?;
    assert_eq!(rt; go_on(&mut state, &mut order), None);
    order.raise(&not_second(alloc)?)?;
    order.release(&state, 0)?;
    state.back(0);
    assert_eq!(rt; order.next(&state), Some(Lit { var: 2, on: true }));
    Ok(())
}
