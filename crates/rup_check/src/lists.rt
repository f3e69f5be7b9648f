// The lists of which formulas, assignments and logs are made.
ghost use Rattle.std.specs.Prelude.{◌≡◌, ◌↔◌, ℕ, ◌<◌, ◌^◌, ◌++◌, ◌∷◌, [], length, slice_get, Some, IsTrue, OnOk, OnErr, IfOk};

use item_list::{Copied, ItemList};
use log_law::Lit;
use std::alloc::{AllocError, Global};
use std::marker::Model;

// No clause and no list of hints is longer, so that their lengths can be added. Memory ends long before.
const MOST: usize = 0x3fff_ffff_ffff_ffff;

/// A clause, seen as the list of its literals: it is true where one of them is.
#[derive(Debug, Drop)]
pub struct Clause {
    items: Vec<Lit>,
}

impl Model for Clause {
    ghost use Rattle.std.specs.Prelude.{◌<◌, ◌^◌, List, length};
    ghost use Rattle.log_law.specs.declared.Lit.{Lit};

    ghost Value = { List Lit };

    ghost view = { λ c. c.items.items };

    ghost invariant = { λ c. length c.items.items < 2 ^ 62 };
}

impl Clause {
    /// The clause of no literal, which no assignment satisfies.
    pub fn make(alloc: Global) -> Self
        ensures { result ≡ [] }
    {
        Clause {
            items: Vec::new(alloc),
        }
    }

    /// The number of literals.
    pub fn len(&self) -> usize
        ensures items { result ≡ length self.now }
        ensures small { result < 2 ^ 62 }
    {
        self.items.len()
    }

    pub fn is_empty(&self) -> bool
        ensures { IsTrue result ↔ (self.now ≡ []) }
    {
        self.items.is_empty()
    }

    /// The literal at a place, counted from 0.
    pub fn at(&self, i: usize) -> &Lit
        requires { i < length self.now }
        ensures { slice_get self.now i ≡ Some result.now }
    {
        &self.items[i]
    }

    /// Puts a literal at the end.
    pub fn push(&mut self, x: Lit) -> Result<(), AllocError>
        ensures ok { OnOk result (self.new ≡ self.old ++ x ∷ []) }
        ensures err { OnErr result (self.new ≡ self.old) }
    {
        if self.items.len() >= MOST {
            return Err(AllocError);
        }
        self.items.push(x)?;
        Ok(())
    }

    /// An equal list.
    pub fn copy(&self) -> Result<Self, AllocError>
        ensures { IfOk result (λ made. made ≡ self.now) }
    {
        Ok(Clause {
            items: self.items.clone()?,
        })
    }
}

/// The hints of a line, seen as the list of the identifiers of the clauses that it uses, in the order of use.
#[derive(Debug, Drop)]
pub struct Hints {
    items: Vec<u32>,
}

impl Model for Hints {
    ghost use Rattle.std.specs.Prelude.{◌<◌, ◌^◌, List, ℕ, length};

    ghost Value = { List ℕ };

    ghost view = { λ h. h.items.items };

    ghost invariant = { λ h. length h.items.items < 2 ^ 62 };
}

impl Hints {
    /// No hints.
    pub fn make(alloc: Global) -> Self
        ensures { result ≡ [] }
    {
        Hints {
            items: Vec::new(alloc),
        }
    }

    /// The number of identifiers.
    pub fn len(&self) -> usize
        ensures items { result ≡ length self.now }
        ensures small { result < 2 ^ 62 }
    {
        self.items.len()
    }

    pub fn is_empty(&self) -> bool
        ensures { IsTrue result ↔ (self.now ≡ []) }
    {
        self.items.is_empty()
    }

    /// The identifier at a place, counted from 0.
    pub fn at(&self, i: usize) -> &u32
        requires { i < length self.now }
        ensures { slice_get self.now i ≡ Some result.now }
    {
        &self.items[i]
    }

    /// Puts an identifier at the end.
    pub fn push(&mut self, x: u32) -> Result<(), AllocError>
        ensures ok { OnOk result (self.new ≡ self.old ++ x ∷ []) }
        ensures err { OnErr result (self.new ≡ self.old) }
    {
        if self.items.len() >= MOST {
            return Err(AllocError);
        }
        self.items.push(x)?;
        Ok(())
    }

    /// An equal list.
    pub fn copy(&self) -> Result<Self, AllocError>
        ensures { IfOk result (λ made. made ≡ self.now) }
    {
        Ok(Hints {
            items: self.items.clone()?,
        })
    }
}

/// An assignment, seen as the list of its truth values: place `v - 1` is for variable `v`.
pub type Truth = ItemList<bool>;

/// A line of a log: its identifier, the literals of the clause that it adds, and its hints.
#[derive(Debug, Drop)]
pub struct Line {
    pub id: u32,
    pub lits: Clause,
    pub hints: Hints,
}

impl Model for Line {
    ghost use Rattle.log_law.specs.Logs.{Line as LogLine};

    ghost Value = { LogLine };

    ghost view = { λ l. record { id = l.id; literals = l.lits; hints = l.hints } };
}

impl Line {
    /// An equal line.
    pub fn copy(&self) -> Result<Self, AllocError>
        ensures { IfOk result (λ made. made ≡ self.now) }
    {
        Ok(Line {
            id: self.id,
            lits: self.lits.copy()?,
            hints: self.hints.copy()?,
        })
    }
}

impl Copied for Line {
    fn copy(&self) -> Result<Self, AllocError> {
        Line::copy(self)
    }
}

/// A log, seen as the list of its lines. A line counts from 0.
pub type Log = ItemList<Line>;
