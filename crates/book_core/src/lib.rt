//! Books: an opening plan, and a journal of entries that improve it.
#![tactic(auto)]

ghost use Rattle.book_core.specs.WorldLaws.{EventsKeepWorlds};

mod book;
mod copies;
mod entry;
mod grows;
mod refusal;
mod replica;
mod rows;
mod steps;
mod threads;
mod world;

pub use book::Book;
pub use entry::Entry;
pub use refusal::{Accepted, Refusal};
pub use replica::Replica;
pub use world::{Event, Reply, World};

/// The law of worlds: whatever events come to any number of replicas, in whatever order.
pub fn laws()
    ensures events_keep_worlds { EventsKeepWorlds }
{}
