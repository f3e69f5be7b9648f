// The lock, its passes, and a holding of the value.
ghost use Rattle.std.specs.Prelude.{◌≡◌, ℕ, ◌+◌, ◌<◌, ◌≤◌, ◌%◌, ◌^◌, List, [], ◌∷◌, length, All, Some, IfOk, IfErr, sum_by};
ghost use mathlib.Core.List.{IsPrefix};
ghost use Rattle.vcell.specs.Passes.{IsPassOf};
ghost use Rattle.vcell.specs.Steps.{at_stage, OlderIf, BeginsAll, IsNewPass};
ghost use Rattle.vcell.specs.declared.lock_rule.Stage.TheVariants.{Idle, Waits, Found};

use crate::grows::Grows;
use crate::lock_rule::{
    DrawTicket, LoadServing, Origin, RaiseCount, RaiseServing, Seating, SeenIsPrefix, View,
};
use atomic_table::{Refused, Seat, Shared, Table};
use seat_list::SeatList;
use std::alloc::{AllocFailed, Global};
use std::marker::Model;
use std::snapshot::Snapshot;
use std::sync::Wait;

/// A lock over a value that grows. Contracts see which lock it is, the value's ground, how many passes were made, and how many entries the value had then. It may be shared by threads.
#[derive(Drop)]
pub struct VCell<V: Grows> {
    table: Table<Option<V>, View<V>, Origin<V>, SeenIsPrefix, Global>,
}

impl<V: Grows> Model for VCell<V> {
    ghost use Rattle.std.specs.Prelude.{◌≡◌, ◌<◌, length};
    ghost use Rattle.vcell.specs.Passes.{LockView};

    ghost Value = { LockView V.Ground };

    ghost view = { λ c. record { table = c.table.shared.table_id; ground = V.ground c.table.shared.key.start.value; seats = c.table.shared.key.seats; start = length (V.entries c.table.shared.key.start.value) } };

    ghost invariant = { λ c. (c.table.shared.table_id.words ≡ 3) × (c.table.shared.table_id.slots ≡ 1) × (0 < c.table.shared.key.seats) };
}

/// The right to enter a lock, with what its holder knows. Contracts see of which lock it is, the entries that it has seen, with their ground, and how many its own holdings appended. It may be moved to another thread.
#[derive(Drop)]
pub struct Pass<V: Grows> {
    seat: Seat<Option<V>, View<V>>,
}

impl<V: Grows> Model for Pass<V> {
    ghost use Rattle.std.specs.Prelude.{◌≡◌, []};
    ghost use Rattle.vcell.specs.Passes.{PassView};
    ghost use Rattle.vcell.specs.Steps.{seen_in, ground_in};
    ghost use Rattle.vcell.specs.declared.lock_rule.Stage.TheVariants.{Idle};

    ghost Value = { PassView V.Entry V.Ground };

    ghost view = { λ p. record { table = p.seat.table_id; ground = ground_in V.ground p.seat.me.0.last; seen = seen_in V.entries p.seat.me.0.last; made = p.seat.me.0.made } };

    ghost invariant = { λ p. (p.seat.me.0.seats ≡ 1) × (p.seat.me.0.stage ≡ Idle) × (p.seat.me.1 ≡ []) };
}

pub type PassList<V> = SeatList<Pass<V>>;

/// The value in the hands of one thread. Contracts see of which lock it is, the entries that were found, how many the pass had made before, and the value as it is now. It isn't `Drop`, so it ends by `leave`.
pub struct Held<'a, V: Grows> {
    cell: &'a VCell<V>,
    seat: Seat<Option<V>, View<V>>,
    count: u64,
    pub(crate) value: V,
}

impl<'a, V: Grows> Model for Held<'a, V> {
    ghost use Rattle.std.specs.Prelude.{◌≡◌, ℕ, [], ◌∷◌, length, None};
    ghost use Rattle.vcell.specs.Passes.{HeldView};
    ghost use Rattle.vcell.specs.Steps.{found_in};
    ghost use Rattle.vcell.specs.declared.lock_rule.Stage.TheVariants.{Found};

    ghost Value = { HeldView V V.Entry V.Ground };

    ghost view = { λ h. record { lock = h.cell.now; found = found_in V.entries h.seat.me.0.stage; made = h.seat.me.0.made; value = h.value } };

    ghost invariant = { λ h. (h.seat.table_id ≡ h.cell.now.table) × (h.seat.me.0.seats ≡ 1) × (h.seat.me.1 ≡ (0, None) ∷ []) × ((t : ℕ) × (y : V) × (h.seat.me.0.stage ≡ Found t y) × (h.count ≡ length (V.entries y)) × (V.ground y ≡ h.cell.now.ground)) };
}

/// There was no memory. The value comes back.
#[derive(Drop)]
pub struct NoCell<V> {
    pub value: V,
}

// Waits until the ticket is served, and takes the value's slot.
fn wait_turn<V: Grows, R: Wait>(
    rt: &R,
    shared: &Shared<Option<V>, View<V>, Origin<V>, SeenIsPrefix>,
    seat: &mut Seat<Option<V>, View<V>>,
    ticket: u64,
)
    requires own { (seat.old.table_id ≡ shared.now.table_id) × (1 < shared.now.table_id.words) × (seat.old.me.1 ≡ []) }
    requires turn { (t : ℕ) × (seat.old.me.0.stage ≡ Waits t) × (ticket ≡ t % 2 ^ 64) }
    ensures own { seat.new.table_id ≡ seat.old.table_id }
    ensures turn { (t : ℕ) × (x : V) × (seat.new.me.0 ≡ at_stage seat.old.me.0 (Found t x)) × (seat.new.me.1 ≡ (0, Some x) ∷ []) × OlderIf V.entries V.ground x seat.old.me.0.last }
{
    for _ in rt.forever() {
        let serving = shared.load::<LoadServing>(seat, 1);
        if serving == ticket {
            return;
        }
        shared.park(rt, 1, (serving & 0xffff_ffff) as u32);
    }
    unreachable!()
}

// One slot with the value.
fn one_slot<V>(alloc: Global, value: V) -> Result<Vec<Option<V>>, NoCell<V>>
    ensures ok { IfOk result (λ s. s.items ≡ Some value ∷ []) }
    ensures err { IfErr result (λ e. e.value ≡ value) }
{
    let mut slots = Vec::new(alloc);
    match slots.push(Some(value)) {
        Ok(()) => Ok(slots),
        Err(AllocFailed { value }) => {
            slots.destroy_empty();
            Err(NoCell {
                value: value.unwrap(),
            })
        }
    }
}

// The value of the slot.
fn take_back<V>(mut slots: Vec<Option<V>>) -> V
    requires { (x : V) × (slots.items ≡ Some x ∷ []) }
    ensures { slots.items ≡ Some result ∷ [] }
{
    let value = slots.take_last().unwrap();
    slots.destroy_empty();
    value
}

// Cuts the first seat into as many passes.
fn deal<V: Grows>(
    shared: &Shared<Option<V>, View<V>, Origin<V>, SeenIsPrefix>,
    mut first: Seat<Option<V>, View<V>>,
    mut list: PassList<V>,
    seats: u32,
) -> PassList<V>
    requires table { (first.table_id ≡ shared.now.table_id) × (0 < shared.now.table_id.words) }
    requires seats { (0 < seats) × (first.me.0.seats ≡ seats) }
    requires fresh { (first.me.0.made ≡ 0) × (first.me.0.stage ≡ Idle) × (first.me.1 ≡ []) }
    requires room { (list.items ≡ []) × (list.spare ≡ seats) }
    ensures count { length result.items ≡ seats }
    ensures passes { All (IsNewPass V.entries V.ground shared.now.table_id first.me.0.last) result.items }
{
    for _ in 1..seats {
        let seat = shared.split_seat::<Seating>(&mut first);
        list.push_spared(Pass { seat });
    }
    list.push_spared(Pass { seat: first });
    list
}

// Makes one seat of all of them.
fn joined<V: Grows>(
    shared: &Shared<Option<V>, View<V>, Origin<V>, SeenIsPrefix>,
    mut passes: PassList<V>,
) -> Seat<Option<V>, View<V>>
    requires table { 0 < shared.now.table_id.words }
    requires some { 0 < length passes.items }
    requires own { All (λ p. p.table ≡ shared.now.table_id) passes.items }
    ensures seat { (result.table_id ≡ shared.now.table_id) × (result.me.1 ≡ []) × (result.me.0.stage ≡ Idle) }
    ensures seats { result.me.0.seats ≡ length passes.items }
    ensures made { result.me.0.made ≡ sum_by (λ p. p.made) passes.items }
    ensures seen { (xs : List V.Entry) → BeginsAll V.entries xs result.me.0 → All (λ p. IsPrefix p.seen xs) passes.items }
{
    let Some(first) = passes.pop() else {
        unreachable!()
    };
    let Pass { seat: mut kept } = first;
    while let Some(other) = passes.pop() {
        let Pass { seat } = other;
        shared.join_seat::<Seating>(&mut kept, seat);
    }
    kept
}

impl<V: Grows> VCell<V> {
    /// Makes a lock over the value, and its passes, each of which has seen the value's entries.
    pub fn make(alloc: Global, value: V, seats: u32) -> Result<(VCell<V>, PassList<V>), NoCell<V>>
        requires { (0 < seats) × (seats ≤ 16) }
        ensures lock { IfOk result (λ r. (r.0.ground ≡ V.ground value) × (r.0.seats ≡ seats) × (r.0.start ≡ length (V.entries value))) }
        ensures count { IfOk result (λ r. length r.1.items ≡ seats) }
        ensures passes { IfOk result (λ r. All (λ p. IsPassOf r.0 p × (p.seen ≡ V.entries value) × (p.made ≡ 0)) r.1.items) }
        ensures err { IfErr result (λ e. e.value ≡ value) }
    {
        let Ok(list) = SeatList::with_room(alloc, seats as usize) else {
            return Err(NoCell { value });
        };
        let count = value.count();
        let about = Origin {
            start: Snapshot::of(&value),
            seats: seats as u64,
        };
        let slots = one_slot(alloc, value)?;
        match Table::new(alloc, &[0, 0, count], slots, &about) {
            Ok(made) => {
                let (table, first) = made;
                let passes = deal(&table.shared, first, list, seats);
                Ok((VCell { table }, passes))
            }
            Err(Refused { slots }) => Err(NoCell {
                value: take_back(slots),
            }),
        }
    }

    /// Waits for its turn, and takes the value, whose entries begin with all that the pass has seen.
    pub fn enter<R: Wait>(&self, rt: &R, pass: Pass<V>) -> Held<'_, V>
        requires { IsPassOf self.now pass }
        ensures own { (result.lock ≡ self.now) × (result.made ≡ pass.made) }
        ensures found { V.entries result.value ≡ result.found }
        ensures ground { V.ground result.value ≡ self.now.ground }
        ensures seen { IsPrefix pass.seen result.found }
    {
        let Pass { mut seat } = pass;
        let shared = &self.table.shared;
        let ticket = shared.fetch_add::<DrawTicket>(&mut seat, 0, 1);
        wait_turn(rt, shared, &mut seat, ticket);
        let value = shared.exchange(&mut seat, 0, None).unwrap();
        let count = value.count();
        Held {
            cell: self,
            seat,
            count,
            value,
        }
    }

    /// Ends the lock. The value's entries begin with what each pass has seen, and are as many as at `make` and as the passes made.
    pub fn close(self, passes: PassList<V>) -> V
        requires all { length passes.items ≡ self.seats }
        requires own { All (λ p. IsPassOf self p) passes.items }
        ensures ground { V.ground result ≡ self.ground }
        ensures seen { All (λ p. IsPrefix p.seen (V.entries result)) passes.items }
        ensures made { length (V.entries result) ≡ self.start + sum_by (λ p. p.made) passes.items }
    {
        let VCell { table } = self;
        let seat = joined(&table.shared, passes);
        let mut closed = table.close_with(seat);
        let value = closed.take(0).unwrap();
        closed.free();
        value
    }
}

impl<'a, V: Grows> Held<'a, V> {
    /// Gives the value back to its lock. The pass has then seen all of the value's entries.
    pub fn leave(self) -> Pass<V>
        requires ground { V.ground self.value ≡ self.lock.ground }
        requires grown { IsPrefix self.found (V.entries self.value) }
        ensures own { IsPassOf self.entry.lock result }
        ensures seen { result.seen ≡ V.entries self.entry.value }
        ensures made { result.made + length self.entry.found ≡ self.entry.made + length (V.entries self.entry.value) }
    {
        let Held {
            cell,
            mut seat,
            count,
            value,
        } = self;
        let shared = &cell.table.shared;
        let more = value.count() - count;
        let empty = shared.exchange(&mut seat, 0, Some(value));
        let None = empty else { unreachable!() };
        shared.fetch_add::<RaiseCount>(&mut seat, 2, more);
        shared.fetch_add::<RaiseServing>(&mut seat, 1, 1);
        shared.wake_all(1);
        Pass { seat }
    }
}
