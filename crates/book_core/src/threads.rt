// What may cross threads. Each function here is proved where the types named in its calls do.
use crate::{Accepted, Book, Entry, Event, Refusal, Replica, Reply, World};
use vcell::{Pass, PassList, VCell};

fn crosses<T: Send + Sync>(_it: &T) {}

fn is_moved<T: Send>(_it: &T) {}

// Entries and what they are answered may be moved and shared.
fn _entries_cross_threads(entry: &Entry, accepted: &Accepted, refusal: &Refusal) {
    crosses(entry);
    crosses(accepted);
    crosses(refusal);
}

// Books and replicas may be moved and shared.
fn _books_cross_threads(book: &Book, replica: &Replica) {
    crosses(book);
    crosses(replica);
}

// Worlds and their events may be moved and shared.
fn _worlds_cross_threads(world: &World, event: &Event, reply: &Reply) {
    crosses(world);
    crosses(event);
    crosses(reply);
}

// A book behind a lock may be shared, and its passes moved.
fn _locks_cross_threads(cell: &VCell<Book>, pass: &Pass<Book>, passes: &PassList<Book>) {
    crosses(cell);
    is_moved(pass);
    is_moved(passes);
}
