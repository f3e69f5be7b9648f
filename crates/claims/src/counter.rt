// The counter, its seats, and what is known when it ends.
ghost use Rattle.std.specs.Prelude.{◌≡◌, ℕ, ◌-◌, ◌<◌, ◌≤◌, [], ◌∷◌, ◌++◌, length, All, IfOk, OnSome, SomeIff, sum_by};
ghost use Rattle.claims.specs.Draws.{IsSeatOf, EachOnceBelow, times, late, draws_of, late_draws};

use crate::claims_rule::{Draw, EachOnce, Extent, Seating, View};
use atomic_table::{Seat, Shared, Table};
use seat_list::SeatList;
use std::alloc::{AllocError, Global};
use std::marker::Model;

/// A counter from which seats draw numbers, from 0 on. Contracts see which counter it is, how many of the numbers are turns, and how many seats were made. It may be shared by threads.
#[derive(Drop)]
pub struct Claims {
    table: Table<(), View, Extent, EachOnce, Global>,
    turns: u64,
}

impl Model for Claims {
    ghost use Rattle.std.specs.Prelude.{◌≡◌, ◌<◌};
    ghost use Rattle.claims.specs.Draws.{CounterView};

    ghost Value = { CounterView };

    ghost view = { λ c. record { table = c.table.shared.table_id; turns = c.table.shared.key.turns; seats = c.table.shared.key.seats } };

    ghost invariant = { λ c. (c.table.shared.table_id.words ≡ 1) × (c.table.shared.table_id.slots ≡ 0) × (c.table.shared.key.turns ≡ c.turns) × (0 < c.table.shared.key.seats) };
}

/// A seat at a counter. Contracts see of which counter it is, and the numbers that it drew, in order. It may be moved to another thread.
#[derive(Drop)]
pub struct ClaimSeat {
    seat: Seat<(), View>,
}

impl Model for ClaimSeat {
    ghost use Rattle.std.specs.Prelude.{◌≡◌, []};
    ghost use Rattle.claims.specs.Draws.{SeatView};

    ghost Value = { SeatView };

    ghost view = { λ s. record { table = s.seat.table_id; numbers = s.seat.me.0.numbers } };

    ghost invariant = { λ s. (s.seat.me.0.seats ≡ 1) × (s.seat.me.1 ≡ []) };
}

pub type ClaimSeats = SeatList<ClaimSeat>;

// Makes one seat of all of them.
fn joined(shared: &Shared<(), View, Extent, EachOnce>, mut seats: ClaimSeats) -> Seat<(), View>
    requires table { 0 < shared.now.table_id.words }
    requires some { 0 < length seats.items }
    requires own { All (λ s. s.table ≡ shared.now.table_id) seats.items }
    ensures seat { (result.table_id ≡ shared.now.table_id) × (result.me.1 ≡ []) }
    ensures seats { result.me.0.seats ≡ length seats.items }
    ensures count { length result.me.0.numbers ≡ draws_of seats.items }
    ensures late { (n : ℕ) → late n result.me.0.numbers ≡ late_draws n seats.items }
    ensures times { (x : ℕ) → times x result.me.0.numbers ≡ sum_by (λ s. times x s.numbers) seats.items }
{
    let Some(first) = seats.pop() else {
        unreachable!()
    };
    let ClaimSeat { seat: mut kept } = first;
    while let Some(other) = seats.pop() {
        let ClaimSeat { seat } = other;
        shared.join_seat::<Seating>(&mut kept, seat);
    }
    kept
}

impl Claims {
    /// Makes a counter at 0, and its seats.
    pub fn make(alloc: Global, turns: u64, seats: u32) -> Result<(Claims, ClaimSeats), AllocError>
        requires seats { (0 < seats) × (seats ≤ 16) }
        requires turns { turns ≤ 2000000 }
        ensures counter { IfOk result (λ r. (r.0.turns ≡ turns) × (r.0.seats ≡ seats)) }
        ensures count { IfOk result (λ r. length r.1.items ≡ seats) }
        ensures seats { IfOk result (λ r. All (λ s. IsSeatOf r.0 s × (s.numbers ≡ [])) r.1.items) }
    {
        let mut list = SeatList::with_room(alloc, seats as usize)?;
        let about = Extent {
            turns,
            seats: seats as u64,
        };
        let (table, mut first) = Table::of_words(alloc, &[0], &about)?;
        for _ in 1..seats {
            let seat = table.shared.split_seat::<Seating>(&mut first);
            list.push_spared(ClaimSeat { seat });
        }
        list.push_spared(ClaimSeat { seat: first });
        Ok((Claims { table, turns }, list))
    }

    /// Draws the next number, whatever other threads do. The answer is `None` where it isn't below the number of turns, and the seat draws no more.
    pub fn draw(&self, seat: &mut ClaimSeat) -> Option<u64>
        requires own { IsSeatOf self.now seat.old }
        requires never_none { All (λ n. n < self.now.turns) seat.old.numbers }
        ensures own { IsSeatOf self.now seat.new }
        ensures drawn { (n : ℕ) × (seat.new.numbers ≡ seat.old.numbers ++ n ∷ []) × SomeIff result (n < self.now.turns) n }
        ensures never_none { OnSome result (All (λ n. n < self.now.turns) seat.new.numbers) }
    {
        let number = self.table.shared.fetch_add::<Draw>(&mut seat.seat, 0, 1);
        if number < self.turns {
            Some(number)
        } else {
            None
        }
    }

    /// Ends the counting, and answers how many numbers were drawn. Each number below the answer was drawn by one seat, once, and those from the number of turns on were late.
    pub fn close(self, seats: ClaimSeats) -> u64
        requires all { length seats.items ≡ self.seats }
        requires own { All (λ s. IsSeatOf self s) seats.items }
        ensures once { EachOnceBelow result seats.items }
        ensures count { draws_of seats.items ≡ result }
        ensures late { late_draws self.turns seats.items ≡ result - self.turns }
    {
        let Claims { table, turns: _ } = self;
        let seat = joined(&table.shared, seats);
        let closed = table.close_with(seat);
        let word = closed.word(0);
        closed.free();
        word
    }
}
