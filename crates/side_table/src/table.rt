// The sides of a mesh, found by their ends.
ghost use Rattle.std.specs.Prelude.{◌≡◌, ℕ, [], MatchOption, IfOk, OnOk, OnErr, Contains};
ghost use Rattle.side_table.specs.declared.side.Side.{Side};
ghost use Rattle.side_table.specs.Sides.{HasSide, IsWay, IsOrderedSides, AddsSide, PutsSide};

use crate::Side;
use crate::slots::{
    chains_of, exchange, find, from_hint, hints_of, insert, listed, note, note_more,
};
use std::alloc::{AllocError, Global};
use std::marker::Model;

/// The sides of a mesh, seen as the list of them that is ordered as edges are: by where they come from, then by where they go to.
///
/// They are kept in slots, in no order. A slot is found by a hash of the ends of its side, on average in a number of steps that doesn't grow with the table.
/// For each point a slot is noted whose side came from it. What is noted may be out of date, so it is looked at before it is used.
#[derive(Drop)]
pub struct SideTable {
    heads: Vec<Option<usize>>,
    before: Vec<Option<usize>>,
    slots: Vec<Side>,
    hints: Vec<usize>,
    alloc: Global,
}

impl Model for SideTable {
    ghost use Rattle.std.specs.Prelude.{List};
    ghost use Rattle.side_table.specs.declared.side.Side.{Side};

    ghost Value = { List Side };

    ghost use Rattle.side_table.specs.Slots.{AreKept, in_order};

    ghost view = { λ t. in_order t.slots.items };

    ghost invariant = { λ t. AreKept t.heads.items t.before.items t.slots.items };
}

impl SideTable {
    /// No sides. It takes no memory yet.
    pub fn make(alloc: Global) -> SideTable
        ensures { result ≡ [] }
    {
        SideTable {
            heads: Vec::new(alloc),
            before: Vec::new(alloc),
            slots: Vec::new(alloc),
            hints: Vec::new(alloc),
            alloc,
        }
    }

    /// The sides of an ordered list, in O(n) steps.
    pub fn of(alloc: Global, sides: &[Side]) -> Result<SideTable, AllocError>
        requires { IsOrderedSides sides.now }
        ensures { IfOk result (λ t. t ≡ sides.now) }
    {
        let (heads, before, slots) = chains_of(alloc, sides)?;
        let hints = hints_of(alloc, sides)?;
        Ok(SideTable {
            heads,
            before,
            slots,
            hints,
            alloc,
        })
    }

    /// The way from `u` to `v`, where it is there. It takes O(1) steps on average.
    pub fn get(&self, u: u32, v: u32) -> Option<Side>
        ensures { MatchOption result (¬ HasSide self.now u v) (λ s. Contains self.now s × IsWay s u v) }
    {
        match find(&self.heads, &self.before, &self.slots, u, v) {
            Some(place) => Some(self.slots[place]),
            None => None,
        }
    }

    /// A side from `u`, where there is one. Which one is free. It takes O(1) steps where a side that was put or set from there last is still there, and O(n) else.
    pub fn from_point(&self, u: u32) -> Option<Side>
        ensures { MatchOption result ((v : ℕ) → ¬ HasSide self.now u v) (λ s. Contains self.now s × (s.from ≡ u)) }
    {
        from_hint(&self.slots, &self.hints, u)
    }

    /// Adds a side on a way that isn't there, in O(1) steps on average over all that are added. After want of memory nothing has changed.
    pub fn add(&mut self, t: Side) -> Result<(), AllocError>
        requires { ¬ HasSide self.old t.from t.to }
        ensures added { OnOk result (AddsSide self.old self.new t) }
        ensures unchanged { OnErr result (self.new ≡ self.old) }
    {
        let place = self.slots.len();
        note_more(self.alloc, &mut self.hints, &self.slots, t.from, place)?;
        insert(
            self.alloc,
            &mut self.heads,
            &mut self.before,
            &mut self.slots,
            t,
        )
    }

    /// Puts `t` in the place of the way from `u` to `v`, in O(1) steps on average. It takes no memory: the slot of the one serves for the other.
    pub fn put(&mut self, u: u32, v: u32, t: Side)
        requires there { HasSide self.old u v }
        requires fresh { (x : ℕ) → (y : ℕ) → HasSide self.old x y → IsWay t x y → (x ≡ u) × (y ≡ v) }
        ensures { PutsSide self.old self.new u v t }
    {
        match find(&self.heads, &self.before, &self.slots, u, v) {
            Some(place) => {
                note(&mut self.hints, t.from, place);
                exchange(&mut self.heads, &mut self.before, &mut self.slots, place, t);
            }
            None => unreachable!(),
        }
    }

    /// Puts `t` in the place of the side on the same way, in O(1) steps on average and faster than `put`. It takes no memory.
    pub fn set(&mut self, t: Side)
        requires { HasSide self.old t.from t.to }
        ensures { PutsSide self.old self.new t.from t.to t }
    {
        match find(&self.heads, &self.before, &self.slots, t.from, t.to) {
            Some(place) => {
                note(&mut self.hints, t.from, place);
                self.slots[place] = t;
            }
            None => unreachable!(),
        }
    }

    /// The sides in order, in O(n log n) steps.
    pub fn list(&self) -> Result<Vec<Side>, AllocError>
        ensures { IfOk result (λ v. v.items ≡ self.now) }
    {
        listed(self.alloc, &self.slots)
    }

    /// An equal table, in O(n) steps.
    pub fn copy(&self) -> Result<SideTable, AllocError>
        ensures { IfOk result (λ t. t ≡ self.now) }
    {
        let heads = self.heads.to_vec(self.alloc)?;
        let before = self.before.to_vec(self.alloc)?;
        let slots = self.slots.to_vec(self.alloc)?;
        let hints = self.hints.to_vec(self.alloc)?;
        Ok(SideTable {
            heads,
            before,
            slots,
            hints,
            alloc: self.alloc,
        })
    }
}
