// A sink in memory, which fails where it was told to.
ghost use Rattle.std.specs.Prelude.{◌≡◌, ◌≤◌, ◌<◌, ◌+◌, ◌↔◌, [], Some, Ok, length, OnOk, OnErr, IfOk, IsErr};
ghost use Rattle.std.specs.Ordering.{nat_cmp};
ghost use Rattle.std.specs.FinSet.{contains, from_list, insert};
ghost use Rattle.host_io.specs.Sink.{Puts, SinkHasCause};
ghost use Rattle.host_io.specs.Memory.{new_sink, Fails, PutsMemory};

use crate::{Sink, SinkFail};
use std::alloc::{AllocError, Global};
use std::marker::Model;

/// A sink in memory, which takes a piece whole or fails where it was told to. It tells all.
#[derive(Debug, Drop)]
pub struct MemSink {
    taken: Vec<u8>,
    room: usize,
    failing: Vec<u64>,
    stalling: Vec<u64>,
    calls: u64,
    faults: u64,
}

impl Model for MemSink {
    ghost use Rattle.std.specs.Prelude.{◌+◌, ◌≤◌, vec_len, vec_capacity};
    ghost use Rattle.std.specs.FinSet.{from_list};
    ghost use Rattle.host_io.specs.Memory.{SinkState, sink_code};

    ghost Value = { SinkState };

    ghost coded = { sink_code };

    ghost view = { λ s. record { told = s.taken.items; room = s.room; failing = from_list s.failing.items; stalling = from_list s.stalling.items; calls = s.calls; faults = s.faults } };

    ghost invariant = { λ s. vec_len s.taken + s.room ≤ vec_capacity s.taken };
}

fn is_named(calls: &[u64], call: u64) -> bool
    ensures { result ≡ contains {R = nat_cmp} (from_list calls.now) call }
{
    calls.contains(&call)
}

impl MemSink {
    /// It has told nothing, and has no fault and no room.
    pub fn make(alloc: Global) -> Self
        ensures { result ≡ new_sink }
    {
        MemSink {
            taken: Vec::new(alloc),
            room: 0,
            failing: Vec::new(alloc),
            stalling: Vec::new(alloc),
            calls: 0,
            faults: 0,
        }
    }

    /// Adds room for n more bytes, which later puts use up.
    pub fn reserve(&mut self, n: usize) -> Result<(), AllocError>
        ensures ok { OnOk result (self.new ≡ record self.old { room = self.old.room + n }) }
        ensures err { OnErr result (self.new ≡ self.old) }
    {
        let Some(room) = self.room.checked_add(n) else {
            return Err(AllocError);
        };
        self.taken.reserve(room)?;
        self.room = room;
        Ok(())
    }

    /// Lets a call of put fail, counted from 0, unless its piece is empty.
    pub fn fail_at(&mut self, call: u64) -> Result<(), AllocError>
        ensures ok { OnOk result (self.new ≡ record self.old { failing = insert self.old.failing call }) }
        ensures err { OnErr result (self.new ≡ self.old) }
    {
        self.failing.insert(0, call)?;
        Ok(())
    }

    /// Lets a call of put take nothing, counted from 0, unless its piece is empty. That is a fault too.
    pub fn stall_at(&mut self, call: u64) -> Result<(), AllocError>
        ensures ok { OnOk result (self.new ≡ record self.old { stalling = insert self.old.stalling call }) }
        ensures err { OnErr result (self.new ≡ self.old) }
    {
        self.stalling.insert(0, call)?;
        Ok(())
    }

    /// The bytes that it was told.
    pub fn bytes(&self) -> &[u8]
        ensures { result.now ≡ self.now.told }
    {
        self.taken.as_slice()
    }
}

impl Sink for MemSink {
    ghost told = { λ s. Some s.told };

    ghost faults = { λ s. s.faults };

    fn put(&mut self, piece: &[u8]) -> Result<usize, SinkFail>
        ensures failed { IsErr result ↔ Fails self.old piece.now }
        ensures exact { PutsMemory self.old self.new piece.now result }
        ensures content { Puts (Some self.old.told) (Some self.new.told) piece.now result }
        ensures bound { IfOk result (λ n. n ≤ length piece.now) }
        ensures some { IfOk result (λ n. 0 < length piece.now → 0 < n) }
        ensures empty { piece.now ≡ [] → result ≡ Ok 0 }
        ensures cause { SinkHasCause self.old.faults self.new.faults result }
    {
        let call = self.calls;
        self.calls = self.calls.saturating_add(1);
        if piece.is_empty() {
            return Ok(0);
        }
        if is_named(&self.failing, call)
            || is_named(&self.stalling, call)
            || piece.len() > self.room
        {
            self.faults = self.faults.saturating_add(1);
            return Err(SinkFail::Failed);
        }
        self.room -= piece.len();
        if self.taken.extend_from_slice(piece).is_err() {
            unreachable!()
        }
        Ok(piece.len())
    }
}
