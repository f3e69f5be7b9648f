// A store in memory, which fails where it was told to.
ghost use Rattle.std.specs.Prelude.{◌≡◌, OnOk, OnErr, Some, option_map, take};
ghost use Rattle.std.specs.FinMap.{get, insert};
ghost use Rattle.host_io.specs.Store.{Counts, CountsReads, CountsWrites, HasCause, Reads, Writes};
ghost use Rattle.host_io.specs.Memory.{new_store, ReadsMemory, WritesMemory};
ghost use Rattle.host_io.specs.Log.{held_in, planned_in};

use crate::{Bytes, Store, StoreFail};
use std::alloc::{AllocError, Global};
use std::marker::Model;

// What was put under a name.
#[derive(Debug, Drop)]
pub(crate) struct File {
    name: String,
    bytes: Bytes,
}

// A call that is to fail, and how many bytes it then keeps if it is a write.
#[derive(Clone, Copy, Debug)]
pub(crate) struct Plan {
    call: u64,
    keep: u64,
}

/// A store in memory, which fails where it was told to. It tells all.
///
/// It is a log: older bytes of a name stay in memory, and a look-up reads from the newest file on.
#[derive(Debug, Drop)]
pub struct MemStore {
    alloc: Global,
    // The newest stands first, and counts; so it is with the plans.
    files: Vec<File>,
    plans: Vec<Plan>,
    calls: u64,
    read_faults: u64,
    write_faults: u64,
}

impl Model for MemStore {
    ghost use Rattle.host_io.specs.Memory.{StoreState, store_code};
    ghost use Rattle.host_io.specs.Log.{held_in, planned_in};

    ghost Value = { StoreState };

    ghost coded = { store_code };

    ghost view = { λ s. record { held = held_in s.files.items; planned = planned_in s.plans.items; calls = s.calls; read_faults = s.read_faults; write_faults = s.write_faults } };
}

fn found<'a>(files: &'a [File], name: &str) -> Option<&'a Bytes>
    ensures { option_map (λ b. b.now) result ≡ get (held_in files.now) name.now }
{
    for file in files {
        if name == file.name.as_str() {
            return Some(&file.bytes);
        }
    }
    None
}

fn planned(plans: &[Plan], call: u64) -> Option<u64>
    ensures { result ≡ get (planned_in plans.now) call }
{
    for plan in plans {
        if call == plan.call {
            return Some(plan.keep);
        }
    }
    None
}

// The first bytes, or all where there are fewer.
fn front(bytes: &[u8], count: u64) -> &[u8]
    ensures { result.now ≡ take count bytes.now }
{
    if count < bytes.len() as u64 {
        &bytes[..count as usize]
    } else {
        bytes
    }
}

impl MemStore {
    /// An empty store, which had no call and no fault, and has none planned.
    pub fn make(alloc: Global) -> Self
        ensures { result ≡ new_store }
    {
        MemStore {
            alloc,
            files: Vec::new(alloc),
            plans: Vec::new(alloc),
            calls: 0,
            read_faults: 0,
            write_faults: 0,
        }
    }

    /// Puts bytes under a name, in place of those that were there. It is no call.
    pub fn hold(&mut self, name: &str, bytes: &[u8]) -> Result<(), AllocError>
        ensures ok { OnOk result (self.new ≡ record self.old { held = insert self.old.held name.now bytes.now }) }
        ensures err { OnErr result (self.new ≡ self.old) }
    {
        let file = File {
            name: String::from_str(self.alloc, name)?,
            bytes: Bytes::of(self.alloc, bytes)?,
        };
        self.files.insert(0, file)?;
        Ok(())
    }

    /// Lets a call of read or write fail, counted from 0. A write then keeps so many first bytes,
    /// or all where there are fewer. Where a call is named twice the later count holds.
    pub fn fail_at(&mut self, call: u64, keep: u64) -> Result<(), AllocError>
        ensures ok { OnOk result (self.new ≡ record self.old { planned = insert self.old.planned call keep }) }
        ensures err { OnErr result (self.new ≡ self.old) }
    {
        self.plans.insert(0, Plan { call, keep })?;
        Ok(())
    }

    /// The bytes that are held under a name. It is no call.
    pub fn look(&self, name: &str) -> Option<&[u8]>
        ensures { option_map (λ b. b.now) result ≡ get self.now.held name.now }
    {
        match found(&self.files, name) {
            Some(bytes) => Some(bytes.as_slice()),
            None => None,
        }
    }
}

impl Store for MemStore {
    ghost held = { λ s. Some s.held };

    ghost read_faults = { λ s. s.read_faults };

    ghost write_faults = { λ s. s.write_faults };

    ghost calls = { λ s. s.calls };

    fn read(&mut self, alloc: Global, name: &str) -> Result<Bytes, StoreFail>
        ensures exact { ReadsMemory self.old self.new name.now result }
        ensures content { Reads (Some self.old.held) (Some self.new.held) name.now result }
        ensures cause { HasCause self.old.read_faults self.new.read_faults result }
        ensures unchanged { CountsReads (Some self.old.held) self.old.read_faults self.new.read_faults result }
        ensures writes { self.new.write_faults ≡ self.old.write_faults }
        ensures counted { Counts self.old.calls self.new.calls }
    {
        let call = self.calls;
        self.calls = self.calls.saturating_add(1);
        if planned(&self.plans, call).is_some() {
            self.read_faults = self.read_faults.saturating_add(1);
            return Err(StoreFail::Failed);
        }
        match found(&self.files, name) {
            Some(bytes) => Ok(Bytes::of(alloc, bytes.as_slice())?),
            None => Err(StoreFail::NotHeld),
        }
    }

    fn write(&mut self, name: &str, bytes: &[u8]) -> Result<(), StoreFail>
        ensures exact { WritesMemory self.old self.new name.now bytes.now result }
        ensures content { Writes (Some self.old.held) (Some self.new.held) name.now bytes.now result }
        ensures cause { HasCause self.old.write_faults self.new.write_faults result }
        ensures unchanged { CountsWrites (Some self.old.held) self.old.write_faults self.new.write_faults result }
        ensures reads { self.new.read_faults ≡ self.old.read_faults }
        ensures counted { Counts self.old.calls self.new.calls }
    {
        let call = self.calls;
        self.calls = self.calls.saturating_add(1);
        match planned(&self.plans, call) {
            Some(keep) => {
                self.hold(name, front(bytes, keep))?;
                self.write_faults = self.write_faults.saturating_add(1);
                Err(StoreFail::Failed)
            }
            None => {
                self.hold(name, bytes)?;
                Ok(())
            }
        }
    }
}
