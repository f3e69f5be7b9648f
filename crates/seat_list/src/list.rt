// A list of tokens, with a number of further ones that need no memory.
ghost use Rattle.std.specs.Prelude.{◌≡◌, ◌+◌, ◌-◌, ◌<◌, [], ◌∷◌, ◌++◌, ◌↔◌, length, slice_get, Some, IfOk, OnOk, OnErr, IsOk, IfSome, IsTrue, IsNone, OnSome, IfNone};

use std::alloc::{AllocError, Global};
use std::marker::Model;

/// A list of tokens that threads take and give back. Contracts see its items, and as `spare` how many more it takes without memory.
#[derive(Drop)]
pub struct SeatList<T> {
    items: Vec<T>,
    // no more than the vector has room for
    room: usize,
}

impl<T> Model for SeatList<T> {
    ghost use Rattle.std.specs.Prelude.{◌+◌, ◌≤◌, vec_len, vec_capacity};
    ghost use Rattle.seat_list.specs.Seats.{Seats, seats_code};

    ghost Value = { Seats T };

    ghost coded = { seats_code T.code };

    ghost view = { λ l. record { items = l.items.items; spare = l.room } };

    ghost invariant = { λ l. vec_len l.items + l.room ≤ vec_capacity l.items };
}

impl<T> SeatList<T> {
    pub fn make(alloc: Global) -> Self
        ensures { (result.items ≡ []) × (result.spare ≡ 0) }
    {
        SeatList {
            items: Vec::new(alloc),
            room: 0,
        }
    }

    /// An empty list with room for so many.
    pub fn with_room(alloc: Global, room: usize) -> Result<Self, AllocError>
        ensures { IfOk result (λ l. (l.items ≡ []) × (l.spare ≡ room)) }
    {
        Ok(SeatList {
            items: Vec::with_capacity(alloc, room)?,
            room,
        })
    }

    pub fn len(&self) -> usize
        ensures { result ≡ length self.now.items }
    {
        self.items.len()
    }

    pub fn is_empty(&self) -> bool
        ensures { IsTrue result ↔ (self.now.items ≡ []) }
    {
        self.items.is_empty()
    }

    pub fn at(&self, i: usize) -> &T
        requires { i < length self.now.items }
        ensures { slice_get self.now.items i ≡ Some result.now }
    {
        &self.items[i]
    }

    /// Takes the last item, and leaves room for it.
    pub fn pop(&mut self) -> Option<T>
        ensures some { IfSome result (λ x. self.old.items ≡ self.new.items ++ x ∷ []) }
        ensures spare { OnSome result (self.new.spare ≡ self.old.spare + 1) }
        ensures none { IsNone result ↔ (self.old.items ≡ []) }
        ensures same { IfNone result (self.new ≡ self.old) }
    {
        let last = self.items.pop()?;
        self.room += 1;
        Some(last)
    }

    /// Puts an item at the end, where there is room for it.
    pub fn push_spared(&mut self, x: T)
        requires { 0 < self.old.spare }
        ensures items { self.new.items ≡ self.old.items ++ x ∷ [] }
        ensures spare { self.new.spare + 1 ≡ self.old.spare }
    {
        self.items.push_reserved(x);
        self.room -= 1;
    }
}

impl<T: Drop> SeatList<T> {
    /// Puts an item at the end. It takes memory only where `spare` is 0, and then leaves `spare` at 0. At `Err` the item is given up.
    pub fn push(&mut self, x: T) -> Result<(), AllocError>
        ensures ok { OnOk result (self.new.items ≡ self.old.items ++ x ∷ []) }
        ensures spare { OnOk result (self.new.spare ≡ self.old.spare - 1) }
        ensures room { 0 < self.old.spare → IsOk result }
        ensures err { OnErr result (self.new ≡ self.old) }
    {
        if self.room > 0 {
            self.push_spared(x);
            return Ok(());
        }
        self.items.push(x)?;
        Ok(())
    }
}
