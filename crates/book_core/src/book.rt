// A book: a plan with the rows of its inputs, kept by the entries of one journal.
ghost use Rattle.std.specs.Prelude.{◌≡◌, ◌<◌, ℕ, length, sum, Some, None, IfOk, IfErr, IfSome, IfNone, OnOk, OnErr, slice_get};
ghost use Rattle.assignment_law.specs.Assignments.{IsAssignment};
ghost use Rattle.tri_check.specs.Problems.{IsProblem};
ghost use Rattle.plan_law.specs.Plans.{plan_total};
ghost use Rattle.plan_law.specs.Books.{bound, row_of, identity, IsBook};
ghost use Rattle.plan_law.specs.Worlds.{lower_table};
ghost use Rattle.book_core.specs.declared.entry.Entry.TheVariants as entry;
ghost use Rattle.book_core.specs.Entries.{pair_row, IsJustifiedRow};
ghost use Rattle.book_core.specs.HeldBooks.{opened, IsOffer, Accepts, Refuses, IsBelowPlans, SaysTrue, with_line, book_of, now_of, front_of};
ghost use Rattle.book_core.specs.HeldReplicas.{seen_all};

use crate::copies::set_copies;
use crate::rows::find_row;
use crate::steps::{make_move, make_swap};
use crate::{Accepted, Entry, Refusal};
use edge_table::{EdgeSeq, Rounds};
use match_bound::{Perm, Weights, perm_bound};
use pair_rows::Row;
use plan_core::Plan;
use std::alloc::{AllocError, Global};
use std::marker::Model;
use std::snapshot::Snapshot;

/// A book, seen as the instance, the plan with which it was opened, and the journal of its entries. The plan, the rows, the assignment and the bound that it holds are what the entries make of the opening, one after the other.
#[derive(Drop)]
pub struct Book {
    opening: Snapshot<Plan>,
    opened: u128,
    plan: Plan,
    journal: Vec<Entry>,
    front: u64,
    // The lower bounds of the copies of the inputs.
    weights: Weights,
    perm: Perm,
    limit: u64,
}

impl Model for Book {
    ghost use Rattle.book_core.specs.HeldBooks.{HeldBook};

    ghost Value = { HeldBook };

    ghost use Rattle.book_core.specs.HeldBooks.{IsHeldBook, AreNumbers};

    ghost view = { λ b. record { problem = b.plan.problem; opening = b.opening.value.plan; journal = b.journal.items } };

    ghost invariant = { λ b. IsHeldBook (record { problem = b.plan.problem; opening = b.opening.value.plan; journal = b.journal.items }) b.plan.plan b.weights b.perm × AreNumbers (record { problem = b.plan.problem; opening = b.opening.value.plan; journal = b.journal.items }) b.opened b.front b.limit };
}

// Each copy goes to itself.
fn identity(alloc: Global, m: u32) -> Result<Perm, AllocError>
    ensures { IfOk result (λ p. p ≡ identity m) }
{
    let mut perm = Perm::make(alloc);
    for i in 0..m {
        perm.push(i)?;
    }
    Ok(perm)
}

impl Book {
    /// A book with an empty journal, no rows, the assignment of each copy to itself, and the bound 0.
    pub fn opening(alloc: Global, plan: Plan) -> Result<Book, AllocError>
        ensures { IfOk result (λ b. b ≡ opened (plan.problem) (plan.plan)) }
    {
        let _ = plan.inst().count();
        let n = plan.inst().copies();
        let total = plan.total();
        let weights = Weights::make(alloc, n)?;
        let perm = identity(alloc, n)?;
        Ok(Book {
            opening: Snapshot::of(&plan),
            opened: total,
            plan,
            journal: Vec::new(alloc),
            front: 0,
            weights,
            perm,
            limit: 0,
        })
    }

    /// The plan.
    pub fn plan(&self) -> &Plan
        ensures problem { result.now.problem ≡ self.now.problem }
        ensures plan { result.now.plan ≡ (now_of self.now).plan }
    {
        &self.plan
    }

    /// The row of two inputs, the lower one first, where there is one.
    pub fn row(&self, i: u32, j: u32) -> Option<&Row>
        ensures none { IfNone result (row_of (now_of self.now).rows i j ≡ None) }
        ensures some { IfSome result (λ r. row_of (now_of self.now).rows i j ≡ Some (pair_row r.now)) }
    {
        find_row(self.journal.as_slice(), i, j)
    }

    /// The lower bounds of all pairs of copies: that of their inputs, and 0 of two copies of one input.
    pub fn weights(&self) -> &Weights
        ensures table { result.now ≡ lower_table self.now.problem.weights (now_of self.now).rows }
        ensures newest { result.now ≡ (seen_all self.now).state.table }
    {
        &self.weights
    }

    /// What each copy goes to.
    pub fn perm(&self) -> &Perm
        ensures perm { result.now ≡ (now_of self.now).assignment }
        ensures assigns { IsAssignment (sum self.now.problem.weights) result.now }
    {
        &self.perm
    }

    /// The bound of the assignment under the rows. No plan of the instance has a total below it.
    pub fn bound(&self) -> u64
        ensures bound { result ≡ bound (now_of self.now) }
        ensures plans { IsBelowPlans self.now.problem result }
        ensures legal { IsBook (IsJustifiedRow self.now.problem.points self.now.problem.inputs) self.now.problem.points self.now.problem.inputs (book_of self.now) }
    {
        self.limit
    }

    /// The total of the plan with which the book was opened.
    pub fn opening_total(&self) -> u128
        ensures { result ≡ plan_total self.now.opening }
    {
        self.opened
    }

    /// The number of entries.
    pub fn len(&self) -> u64
        ensures { result ≡ length self.now.journal }
    {
        self.journal.len() as u64
    }

    /// The number of moves and swaps.
    pub fn front(&self) -> u64
        ensures { result ≡ front_of self.now }
    {
        self.front
    }

    /// The entry at a place.
    pub fn entry(&self, place: u64) -> &Entry
        requires { place < length self.now.journal }
        ensures { slice_get self.now.journal place ≡ Some result.now }
    {
        &self.journal[place as usize]
    }

    fn offer_move(&mut self, base: u64, turn: u64, edges: EdgeSeq) -> Result<Accepted, Refusal>
        ensures ok { IfOk result (λ a. Accepts self.old base (entry.Move turn edges) a.place a.saved) }
        ensures grown { OnOk result (self.new ≡ with_line self.old (entry.Move turn edges)) }
        ensures err { IfErr result (Refuses self.old base (entry.Move turn edges)) }
        ensures kept { OnErr result (self.new ≡ self.old) }
    {
        let front = self.front;
        if base != front {
            return Err(Refusal::Stale { base, front });
        }
        let place = self.len();
        self.journal.reserve(1)?;
        let saved = make_move(&mut self.plan, &edges)?;
        self.journal.push_reserved(Entry::Move { turn, edges });
        self.front = front + 1;
        Ok(Accepted { place, saved })
    }

    fn offer_swap(
        &mut self,
        base: u64,
        turn: u64,
        input: u32,
        rounds: Rounds,
    ) -> Result<Accepted, Refusal>
        requires { input < length self.old.problem.inputs }
        ensures ok { IfOk result (λ a. Accepts self.old base (entry.Swap turn input rounds) a.place a.saved) }
        ensures grown { OnOk result (self.new ≡ with_line self.old (entry.Swap turn input rounds)) }
        ensures err { IfErr result (Refuses self.old base (entry.Swap turn input rounds)) }
        ensures kept { OnErr result (self.new ≡ self.old) }
    {
        let front = self.front;
        if base != front {
            return Err(Refusal::Stale { base, front });
        }
        let place = self.len();
        self.journal.reserve(1)?;
        let saved = make_swap(&mut self.plan, input, &rounds)?;
        self.journal.push_reserved(Entry::Swap {
            turn,
            input,
            rounds,
        });
        self.front = front + 1;
        Ok(Accepted { place, saved })
    }

    fn offer_row(&mut self, turn: u64, row: Row) -> Result<Accepted, Refusal>
        requires { IsOffer self.old.problem (entry.Row turn row) }
        ensures ok { (base : ℕ) → IfOk result (λ a. Accepts self.old base (entry.Row turn row) a.place a.saved) }
        ensures grown { OnOk result (self.new ≡ with_line self.old (entry.Row turn row)) }
        ensures err { (base : ℕ) → IfErr result (Refuses self.old base (entry.Row turn row)) }
        ensures kept { OnErr result (self.new ≡ self.old) }
    {
        if self.row(row.i, row.j).is_some() {
            return Err(Refusal::Taken(row.i, row.j));
        }
        let place = self.len();
        self.journal.reserve(1)?;
        set_copies(&mut self.weights, self.plan.inst(), row.i, row.j, row.lower);
        self.limit = perm_bound(&self.weights, &self.perm);
        self.journal.push_reserved(Entry::Row { turn, row });
        Ok(Accepted { place, saved: 0 })
    }

    fn offer_pack(&mut self, turn: u64, perm: Perm) -> Result<Accepted, Refusal>
        requires { IsAssignment (sum self.old.problem.weights) perm }
        ensures ok { (base : ℕ) → IfOk result (λ a. Accepts self.old base (entry.Pack turn perm) a.place a.saved) }
        ensures grown { OnOk result (self.new ≡ with_line self.old (entry.Pack turn perm)) }
        ensures err { (base : ℕ) → IfErr result (Refuses self.old base (entry.Pack turn perm)) }
        ensures kept { OnErr result (self.new ≡ self.old) }
    {
        let held = self.limit;
        let given = perm_bound(&self.weights, &perm);
        if given <= held {
            return Err(Refusal::NoRise { held, given });
        }
        let place = self.len();
        self.journal.reserve(1)?;
        let kept = perm.copy()?;
        self.perm = kept;
        self.limit = given;
        self.journal.push_reserved(Entry::Pack { turn, perm });
        Ok(Accepted { place, saved: 0 })
    }

    // What holds of a book at any time.
    pub(crate) fn laws(&self)
        ensures problem { IsProblem self.now.problem.points self.now.problem.inputs }
        ensures weights { self.now.opening.weights ≡ self.now.problem.weights }
        ensures legal { IsBook (IsJustifiedRow self.now.problem.points self.now.problem.inputs) self.now.problem.points self.now.problem.inputs (book_of self.now) }
        ensures plans { IsBelowPlans self.now.problem (bound (now_of self.now)) }
    {
        let _ = &self.opening;
    }

    fn take(&mut self, base: u64, entry: Entry) -> Result<Accepted, Refusal>
        requires { IsOffer self.old.problem entry }
        ensures ok { IfOk result (λ a. Accepts self.old base entry a.place a.saved) }
        ensures grown { OnOk result (self.new ≡ with_line self.old entry) }
        ensures err { IfErr result (Refuses self.old base entry) }
        ensures kept { OnErr result (self.new ≡ self.old) }
    {
        match entry {
            Entry::Move { turn, edges } => self.offer_move(base, turn, edges),
            Entry::Swap {
                turn,
                input,
                rounds,
            } => self.offer_swap(base, turn, input, rounds),
            Entry::Row { turn, row } => self.offer_row(turn, row),
            Entry::Pack { turn, perm } => self.offer_pack(turn, perm),
        }
    }

    /// Takes an entry that is fit, and answers where it stands in the journal. `base` is the number of moves and swaps in the journal on which it was built. A refusal changes nothing. After either no plan of the instance has a total below the bound.
    pub fn offer(&mut self, base: u64, entry: Entry) -> Result<Accepted, Refusal>
        requires { IsOffer self.old.problem entry }
        ensures ok { IfOk result (λ a. Accepts self.old base entry a.place a.saved) }
        ensures grown { OnOk result (self.new ≡ with_line self.old entry) }
        ensures err { IfErr result (Refuses self.old base entry) }
        ensures kept { OnErr result (self.new ≡ self.old) }
        ensures is_true { SaysTrue self.old.problem entry }
        ensures plans { IsBelowPlans self.new.problem (bound (now_of self.new)) }
    {
        self.laws();
        let answer = self.take(base, entry);
        self.laws();
        answer
    }
}
