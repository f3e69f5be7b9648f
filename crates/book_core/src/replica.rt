// Replicas: what a worker keeps of a book.
ghost use Rattle.std.specs.Prelude.{◌≡◌, length, IfOk, OnOk, OnErr};
ghost use Rattle.book_core.specs.HeldReplicas.{IsReplica, IsFurther, seen_all};

use crate::Book;
use match_bound::Weights;
use plan_core::Plan;
use std::alloc::{AllocError, Global};
use std::marker::Model;

/// What a worker keeps of a book, seen as the instance, the plan, the table of the lower bounds of the copies, how many entries it has seen, and how many of them were moves and swaps. It may be moved to another thread.
#[derive(Drop)]
pub struct Replica {
    alloc: Global,
    plan: Plan,
    weights: Weights,
    seen: u64,
    front: u64,
}

impl Model for Replica {
    ghost use Rattle.book_core.specs.HeldReplicas.{HeldReplica};

    ghost Value = { HeldReplica };

    ghost view = { λ r. record { problem = r.plan.problem; state = record { plan = r.plan.plan; table = r.weights; seen = r.seen; front = r.front } } };
}

impl Replica {
    /// What has seen all of the book.
    pub fn of(alloc: Global, book: &Book) -> Result<Replica, AllocError>
        ensures { IfOk result (λ r. r ≡ seen_all book.now) }
    {
        Ok(Replica {
            alloc,
            plan: book.plan().copy()?,
            weights: book.weights().copy()?,
            seen: book.len(),
            front: book.front(),
        })
    }

    /// Takes in the entries of the book that it hasn't seen.
    pub fn catch(&mut self, book: &Book) -> Result<(), AllocError>
        requires { IsReplica book.now self.old }
        ensures ok { OnOk result (self.new ≡ seen_all book.now) }
        ensures err { OnErr result (IsFurther book.now self.old self.new) }
    {
        *self = Replica::of(self.alloc, book)?;
        Ok(())
    }

    /// The number of entries that it has seen.
    pub fn seen(&self) -> u64
        ensures { result ≡ self.now.state.seen }
    {
        self.seen
    }

    /// The number of moves and swaps among them.
    pub fn front(&self) -> u64
        ensures { result ≡ self.now.state.front }
    {
        self.front
    }

    pub fn plan(&self) -> &Plan
        ensures problem { result.now.problem ≡ self.now.problem }
        ensures plan { result.now.plan ≡ self.now.state.plan }
    {
        &self.plan
    }

    /// The lower bounds of all pairs of copies: that of their inputs, and 0 of two copies of one input.
    pub fn weights(&self) -> &Weights
        ensures { result.now ≡ self.now.state.table }
    {
        &self.weights
    }
}
