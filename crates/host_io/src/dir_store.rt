// The files of the working folder as a store. What they hold isn't known.
ghost use Rattle.std.specs.Prelude.{◌≡◌, ◌≤◌, None, IfOk, OnOk, length};
ghost use Rattle.host_io.specs.Store.{Counts, CountsReads, CountsWrites, HasCause, Reads, Writes};
ghost use Rattle.host_io.specs.Folder.{after_read, after_write};

use crate::whole_file::{FileFault, FileId, LONGEST, read_file, write_file};
use crate::{Bytes, Store, StoreFail};
use std::alloc::Global;
use std::marker::Model;
use std::rt::Files;

/// The files of the working folder, through the runtime that it keeps. It tells no content, and is seen
/// as its counts of calls, read faults and write faults.
///
/// A missing file is a fault, and so is one of more than 1,073,741,824 bytes, to be read or written. A write goes to
/// a new file in the same folder, which gets the name once it is whole; a link or a device is written into. What this
/// store has read it doesn't write, under whatever name: that is a fault too.
/// Each call takes time linear in the length of its file, and a write also in the number of files that were read.
pub struct DirStore<R: Files + AllocGlobal + Drop> {
    rt: R,
    read: Vec<FileId>,
    read_faults: u64,
    write_faults: u64,
    calls: u64,
}

impl<R: Files + AllocGlobal + Drop> Model for DirStore<R> {
    ghost use Rattle.host_io.specs.Folder.{StoreCounts};

    ghost Value = { StoreCounts };

    ghost view = { λ s. record { calls = s.calls; read_faults = s.read_faults; write_faults = s.write_faults } };
}

impl<R: Files + AllocGlobal + Drop> Drop for DirStore<R> {
    fn drop(self) {
        let DirStore {
            rt: _,
            read: _,
            read_faults: _,
            write_faults: _,
            calls: _,
        } = self;
    }
}

impl<R: Files + AllocGlobal + Drop> DirStore<R> {
    /// The working folder, with no call and no fault so far.
    pub fn make(rt: R) -> Self
        ensures { result ≡ record { calls = 0; read_faults = 0; write_faults = 0 } }
    {
        let read = Vec::new(rt.alloc());
        DirStore {
            rt,
            read,
            read_faults: 0,
            write_faults: 0,
            calls: 0,
        }
    }
}

impl<R: Files + AllocGlobal + Drop> Store for DirStore<R> {
    ghost held = { λ _. None };

    ghost read_faults = { λ s. s.read_faults };

    ghost write_faults = { λ s. s.write_faults };

    ghost calls = { λ s. s.calls };

    fn read(&mut self, alloc: Global, name: &str) -> Result<Bytes, StoreFail>
        ensures counts { self.new ≡ after_read self.old result }
        ensures limit { IfOk result (λ bytes. length bytes ≤ LONGEST) }
        ensures content { Reads None None name.now result }
        ensures cause { HasCause self.old.read_faults self.new.read_faults result }
        ensures unchanged { CountsReads None self.old.read_faults self.new.read_faults result }
        ensures writes { self.new.write_faults ≡ self.old.write_faults }
        ensures counted { Counts self.old.calls self.new.calls }
    {
        self.calls = self.calls.saturating_add(1);
        match read_file(&self.rt, alloc, &mut self.read, name) {
            Ok(bytes) => Ok(bytes),
            Err(FileFault::OutOfMemory) => Err(StoreFail::OutOfMemory),
            Err(_) => {
                self.read_faults = self.read_faults.saturating_add(1);
                Err(StoreFail::Failed)
            }
        }
    }

    fn write(&mut self, name: &str, bytes: &[u8]) -> Result<(), StoreFail>
        ensures counts { self.new ≡ after_write self.old result }
        ensures limit { OnOk result (length bytes.now ≤ LONGEST) }
        ensures content { Writes None None name.now bytes.now result }
        ensures cause { HasCause self.old.write_faults self.new.write_faults result }
        ensures unchanged { CountsWrites None self.old.write_faults self.new.write_faults result }
        ensures reads { self.new.read_faults ≡ self.old.read_faults }
        ensures counted { Counts self.old.calls self.new.calls }
    {
        self.calls = self.calls.saturating_add(1);
        match write_file(&self.rt, &self.read, name, bytes) {
            Ok(()) => Ok(()),
            Err(FileFault::OutOfMemory) => Err(StoreFail::OutOfMemory),
            Err(_) => {
                self.write_faults = self.write_faults.saturating_add(1);
                Err(StoreFail::Failed)
            }
        }
    }
}
