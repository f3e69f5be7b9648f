// A gate that holds turns until others have begun, so that a run shows that workers work beside each other.
use std::sync::atomic::{AtomicU64, Ordering};
use worker_crew::Gate;

// How often a held turn looks whether the others have begun, before it goes on without them.
const LOOKS: u64 = 200_000_000;

// Holds the turns below `held` until those below `awaited` have begun.
#[derive(Drop)]
pub(crate) struct AllBegin {
    held: u64,
    awaited: u64,
    begun: AtomicU64,
    seen: AtomicU64,
}

impl AllBegin {
    pub(crate) fn new(held: u64, awaited: u64) -> AllBegin {
        AllBegin {
            held,
            awaited,
            begun: AtomicU64::new(0),
            seen: AtomicU64::new(0),
        }
    }

    // How many held turns saw that all had begun.
    pub(crate) fn seen(&self) -> u64 {
        self.seen.load(Ordering::SeqCst)
    }

    fn sees_all(&self) -> bool {
        for _ in 0..LOOKS {
            if self.begun.load(Ordering::SeqCst) >= self.awaited {
                return true;
            }
        }
        false
    }
}

impl Gate for AllBegin {
    fn before(&self, turn: u64) {
        if turn < self.awaited {
            self.begun.fetch_add(1, Ordering::SeqCst);
        }
        if turn < self.held && self.sees_all() {
            self.seen.fetch_add(1, Ordering::SeqCst);
        }
    }
}
