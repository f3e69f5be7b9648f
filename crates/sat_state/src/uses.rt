// For each literal, the numbers of the clauses that have it.
ghost use Rattle.std.specs.Prelude.{◌≡◌, ℕ, ◌+◌, ◌-◌, ◌*◌, ◌<◌, ◌≤◌, ◌^◌, ◌++◌, ◌∷◌, [], List, length, take, slice_index_or, All, IfOk, OnOk, OnErr};
ghost use Rattle.sat_state.specs.Tables.{slot as slot_of, slots, uses_at, enlisted};

use log_law::Lit;
use rup_check::Clause;
use std::alloc::{AllocError, Global};
use std::marker::Model;

// Numbers of clauses.
#[derive(Drop)]
pub(crate) struct Uses {
    numbers: Vec<u32>,
}

impl Model for Uses {
    ghost use Rattle.std.specs.Prelude.{List, ℕ};

    ghost Value = { List ℕ };

    ghost view = { λ u. u.numbers.items };
}

impl Uses {
    fn make(alloc: Global) -> Self
        ensures { result ≡ [] }
    {
        Uses {
            numbers: Vec::new(alloc),
        }
    }

    pub fn len(&self) -> usize
        ensures { result ≡ length self.now }
    {
        self.numbers.len()
    }

    pub fn at(&self, i: usize) -> u32
        requires { i < length self.now }
        ensures { result ≡ slice_index_or self.now i 0 }
    {
        self.numbers[i]
    }

    fn push(&mut self, number: u32) -> Result<(), AllocError>
        ensures ok { OnOk result (self.new ≡ self.old ++ number ∷ []) }
        ensures err { OnErr result (self.new ≡ self.old) }
    {
        self.numbers.push(number)?;
        Ok(())
    }

    fn pop(&mut self)
        ensures { self.new ≡ take (length self.old - 1) self.old }
    {
        let _last = self.numbers.pop();
    }
}

// The place of a literal's list.
pub(crate) fn slot(l: Lit) -> usize
    ensures place { result ≡ slot_of l }
    ensures small { result < 2 ^ 33 }
{
    let side = if l.on { 1 } else { 0 };
    2 * l.var as usize + side
}

// Empty lists for the literals of so many variables.
pub(crate) fn no_uses(alloc: Global, vars: u32) -> Result<Vec<Uses>, AllocError>
    ensures wide { IfOk result (λ made. length made.items ≡ 2 * vars + 2) }
    ensures empty { IfOk result (λ made. (s : ℕ) → uses_at made.items s ≡ []) }
{
    let count = 2 * vars as usize + 2;
    let mut made = Vec::with_capacity(alloc, count)?;
    while made.len() < count {
        made.push(Uses::make(alloc))?;
    }
    Ok(made)
}

// Takes the last number out of the lists of a clause's first literals.
fn strike(uses: &mut [Uses], clause: &Clause, count: usize)
    requires within { count ≤ length clause.now }
    requires slots { All (λ s. s < length uses.old) (slots clause.now) }
    ensures { (before : List (List ℕ)) → (number : ℕ) → All (λ s. s < length before) (slots clause.now) → uses.old ≡ enlisted before (take count (slots clause.now)) number → uses.new ≡ before }
{
    let mut left = count;
    while left > 0 {
        left -= 1;
        let list = &mut uses[slot(*clause.at(left))];
        list.pop();
    }
}

// Puts a clause's number into the lists of its literals. After want of memory nothing has changed.
pub(crate) fn enlist(uses: &mut [Uses], clause: &Clause, number: u32) -> Result<(), AllocError>
    requires { All (λ s. s < length uses.old) (slots clause.now) }
    ensures ok { OnOk result (uses.new ≡ enlisted uses.old (slots clause.now) number) }
    ensures err { OnErr result (uses.new ≡ uses.old) }
{
    for i in 0..clause.len() {
        let list = &mut uses[slot(*clause.at(i))];
        match list.push(number) {
            Ok(()) => {},
            Err(e) => {
                strike(uses, clause, i);
                return Err(e);
            },
        }
    }
    Ok(())
}
