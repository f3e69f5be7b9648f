// Worlds: a book with replicas, to which events come one after the other.
ghost use Rattle.std.specs.Prelude.{◌≡◌, ◌<◌, length, IfOk, OnErr, []};
ghost use Rattle.plan_law.specs.BookLaws.{Extends};
ghost use Rattle.book_core.specs.HeldBooks.{book_of};
ghost use Rattle.book_core.specs.declared.world.Event.TheVariants as event;
ghost use Rattle.book_core.specs.HeldWorlds.{IsHeldWorld, MayCome, Leads, Wants};

use crate::{Accepted, Book, Entry, Refusal, Replica};
use std::alloc::{AllocError, Global};
use std::marker::Model;

/// What comes to a world. A replica is named by its place.
#[derive(Debug, Drop)]
pub enum Event {
    /// A new replica joins, which has seen all of the book.
    Join,
    /// A replica takes in the entries that it hasn't seen.
    Catch(u32),
    /// An entry is offered that was built on the plan of a replica.
    Offer(u32, Entry),
}

/// What an event is answered.
#[derive(Clone, Copy, Debug, PartialEq, Eq)]
pub enum Reply {
    /// The place of the new replica.
    Joined(u32),
    /// How many entries the replica has seen.
    Caught(u64),
    Accepted(Accepted),
    Refused(Refusal),
}

/// A book with replicas.
#[derive(Drop)]
pub struct World {
    alloc: Global,
    book: Book,
    replicas: Vec<Replica>,
}

impl Model for World {
    ghost use Rattle.std.specs.Prelude.{◌≤◌, length, All};
    ghost use Rattle.book_core.specs.HeldWorlds.{HeldWorld};
    ghost use Rattle.book_core.specs.HeldReplicas.{IsReplica};

    ghost Value = { HeldWorld };

    ghost view = { λ w. record { book = w.book; replicas = w.replicas.items } };

    ghost invariant = { λ w. All (IsReplica w.book) w.replicas.items × (length w.replicas.items ≤ 4294967295) };
}

impl World {
    /// A book without replicas.
    pub fn at(alloc: Global, book: Book) -> World
        ensures { result ≡ record { book = book; replicas = [] } }
    {
        World {
            alloc,
            book,
            replicas: Vec::new(alloc),
        }
    }

    /// The book.
    pub fn book(&self) -> &Book
        ensures book { result.now ≡ self.now.book }
        ensures world { IsHeldWorld self.now }
    {
        self.book.laws();
        &self.book
    }

    /// The number of replicas.
    pub fn replicas(&self) -> u32
        ensures { result ≡ length self.now.replicas }
    {
        self.replicas.len() as u32
    }

    fn join(&mut self) -> Result<Reply, AllocError>
        requires { MayCome self.old event.Join }
        ensures ok { IfOk result (λ reply. Leads self.old event.Join reply self.new) }
        ensures err { OnErr result (Wants self.old event.Join self.new) }
    {
        let place = self.replicas.len() as u32;
        self.replicas.reserve(1)?;
        let replica = Replica::of(self.alloc, &self.book)?;
        self.replicas.push_reserved(replica);
        Ok(Reply::Joined(place))
    }

    fn catch(&mut self, r: u32) -> Result<Reply, AllocError>
        requires { MayCome self.old (event.Catch r) }
        ensures ok { IfOk result (λ reply. Leads self.old (event.Catch r) reply self.new) }
        ensures err { OnErr result (Wants self.old (event.Catch r) self.new) }
    {
        let caught = self.replicas[r as usize].catch(&self.book);
        let seen = self.book.len();
        match caught {
            Ok(()) => return Ok(Reply::Caught(seen)),
            Err(_) => return Err(AllocError),
        }
    }

    fn offer(&mut self, r: u32, entry: Entry) -> Result<Reply, AllocError>
        requires { MayCome self.old (event.Offer r entry) }
        ensures ok { IfOk result (λ reply. Leads self.old (event.Offer r entry) reply self.new) }
        ensures err { OnErr result (Wants self.old (event.Offer r entry) self.new) }
    {
        let base = self.replicas[r as usize].front();
        match self.book.offer(base, entry) {
            Ok(accepted) => return Ok(Reply::Accepted(accepted)),
            Err(Refusal::OutOfMemory) => return Err(AllocError),
            Err(refusal) => return Ok(Reply::Refused(refusal)),
        }
    }

    /// One event. The journal of the book then begins with the one before.
    pub fn step(&mut self, event: Event) -> Result<Reply, AllocError>
        requires { MayCome self.old event }
        ensures ok { IfOk result (λ reply. Leads self.old event reply self.new) }
        ensures err { OnErr result (Wants self.old event self.new) }
        ensures extends { Extends (book_of self.old.book) (book_of self.new.book) }
    {
        match event {
            Event::Join => self.join(),
            Event::Catch(r) => self.catch(r),
            Event::Offer(r, entry) => self.offer(r, entry),
        }
    }
}
