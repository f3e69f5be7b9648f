// The frame of the points of an instance.
ghost use Rattle.std.specs.Prelude.{◌≡◌, ◌<◌, ◌≤◌, ◌↔◌, length, IfOk, IfErr};
ghost use Rattle.tri_theory.specs.Rounds.{Within};
ghost use Rattle.bound_law.specs.Bounds.{input_at};
ghost use Rattle.log_law.specs.Clauses.{listed};
ghost use Rattle.flip_cnf.specs.HeldFrames.{IsHeldFrame, size_of, IsBuilt, HasModel, IsBuildFault, Satisfies, AreTold, AreRounds, pruned_size_of, IsPrunedBuilt, IsPrunedFault, SatisfiesPruned, AreToldByPruned};

use crate::BuildFault;
use crate::build::write;
use crate::decode::read;
use crate::size::clauses;
use edge_table::Rounds;
use formula_parts::Lists;
use pruned_cnf::{Query, build, decode, size};
use rup_check::{Cnf, Truth};
use std::alloc::{AllocError, Global};
use std::marker::Model;
use tri_check::Instance;

// The greatest number of points whose frame is listed.
const MOST_POINTS: u32 = 64;

// The greatest number of clauses of a formula that is built.
const MOST_CLAUSES: u64 = 400_000;

// The lists of few points, or the number of many.
#[derive(Drop)]
enum Kind {
    Listed(Lists),
    Many(u32),
}

/// What the formulas of a list of points speak of, seen as its segments, the pairs of them that cross and the flips that a triangulation may have, where there are at most 64 points, and as the number of points where there are more.
#[derive(Drop)]
pub struct Frame {
    alloc: Global,
    kind: Kind,
}

impl Model for Frame {
    ghost use Rattle.flip_cnf.specs.HeldFrames.{HeldFrame};

    ghost Value = { HeldFrame };

    ghost use Rattle.flip_cnf.specs.Kinds.{held};

    ghost view = { λ f. held f.kind };
}

impl Frame {
    /// The frame of the points of an instance. For at most 64 points its time grows with the fourth power of their number, and it keeps 8 bytes for each crossing and each flip. For more points it is done at once.
    pub fn of(alloc: Global, inst: &Instance) -> Result<Frame, AllocError>
        ensures { IfOk result (IsHeldFrame inst.now.points) }
    {
        let count = inst.count();
        if count > MOST_POINTS {
            return Ok(Frame {
                alloc,
                kind: Kind::Many(count),
            });
        }
        let lists = Lists::of(alloc, inst)?;
        Ok(Frame {
            alloc,
            kind: Kind::Listed(lists),
        })
    }

    /// The number of clauses of the formula of `k` rounds, for any two inputs, or `None` where there are more than 64 points. Nothing is built.
    pub fn size(&self, k: u32) -> Option<u64>
        requires { k ≤ 400_000 }
        ensures { result ≡ size_of self.now k }
    {
        match &self.kind {
            Kind::Listed(lists) => Some(clauses(lists, k)),
            Kind::Many(_) => None,
        }
    }

    /// The formula that says that input `j` lies within `k` rounds of input `i`. Its time grows with the clauses, and in each round with the product of the numbers of segments and of flips.
    pub fn build(&self, inst: &Instance, i: u32, j: u32, k: u32) -> Result<Cnf, BuildFault>
        requires frame { IsHeldFrame inst.now.points self.now }
        requires from { i < length inst.now.inputs }
        requires to { j < length inst.now.inputs }
        requires rounds { k ≤ 400_000 }
        ensures built { IfOk result (IsBuilt self.now (input_at inst.now.inputs i) (input_at inst.now.inputs j) k) }
        ensures few { IfOk result (λ built. length built.clauses ≤ 400_000) }
        ensures within { IfOk result (λ built. HasModel built.clauses ↔ Within inst.now.points (input_at inst.now.inputs i) (input_at inst.now.inputs j) k) }
        ensures fault { IfErr result (IsBuildFault inst.now.points self.now k) }
    {
        let _ = inst.count();
        match &self.kind {
            Kind::Listed(lists) => {
                let size = clauses(lists, k);
                if size > MOST_CLAUSES {
                    return Err(BuildFault::TooLarge(size));
                }
                Ok(write(self.alloc, lists, inst.input(i), inst.input(j), k)?)
            }
            Kind::Many(count) => Err(BuildFault::ManyPoints(*count)),
        }
    }

    /// The rounds that a model of the formula tells: they lead from input `i` to input `j`, and their edges are in edge order.
    pub fn decode(
        &self,
        inst: &Instance,
        i: u32,
        j: u32,
        k: u32,
        truth: &Truth,
    ) -> Result<Rounds, AllocError>
        requires frame { IsHeldFrame inst.now.points self.now }
        requires from { i < length inst.now.inputs }
        requires to { j < length inst.now.inputs }
        requires rounds { k ≤ 400_000 }
        requires model { Satisfies self.now (input_at inst.now.inputs i) (input_at inst.now.inputs j) k (listed truth.now) }
        ensures told { IfOk result (AreTold self.now (listed truth.now) k) }
        ensures rounds { IfOk result (AreRounds inst.now.points (input_at inst.now.inputs i) (input_at inst.now.inputs j) k) }
    {
        let _ = inst.count();
        match &self.kind {
            Kind::Listed(lists) => read(self.alloc, lists, k, truth),
            Kind::Many(_) => unreachable!(),
        }
    }

    /// The number of clauses of the pruned formula of `k` rounds from input `i` to input `j`, or `None` where there are more than 64 points. Nothing is built, and few layers are counted, however many rounds there are.
    pub fn size2(&self, inst: &Instance, i: u32, j: u32, k: u32) -> Result<Option<u64>, AllocError>
        requires frame { IsHeldFrame inst.now.points self.now }
        requires from { i < length inst.now.inputs }
        requires to { j < length inst.now.inputs }
        requires rounds { k ≤ 400_000 }
        ensures { IfOk result (λ size. size ≡ pruned_size_of inst.now.points (input_at inst.now.inputs i) (input_at inst.now.inputs j) k self.now) }
    {
        let _ = inst.count();
        match &self.kind {
            Kind::Listed(lists) => {
                let query = Query::of(self.alloc, lists, inst.input(i), inst.input(j), k)?;
                Ok(Some(size(&query)))
            }
            Kind::Many(_) => Ok(None),
        }
    }

    /// The pruned formula: it says the same as that of `build`, with variables for those segments and flips alone that crossings allow. Its time is near the number of its clauses and of the frame's pairs in all layers.
    pub fn build2(&self, inst: &Instance, i: u32, j: u32, k: u32) -> Result<Cnf, BuildFault>
        requires frame { IsHeldFrame inst.now.points self.now }
        requires from { i < length inst.now.inputs }
        requires to { j < length inst.now.inputs }
        requires rounds { k ≤ 400_000 }
        ensures built { IfOk result (λ built. IsPrunedBuilt inst.now.points (input_at inst.now.inputs i) (input_at inst.now.inputs j) k self.now built) }
        ensures few { IfOk result (λ built. length built.clauses ≤ 400_000) }
        ensures within { IfOk result (λ built. HasModel built.clauses ↔ Within inst.now.points (input_at inst.now.inputs i) (input_at inst.now.inputs j) k) }
        ensures fault { IfErr result (λ fault. IsPrunedFault inst.now.points (input_at inst.now.inputs i) (input_at inst.now.inputs j) k self.now fault) }
    {
        let _ = inst.count();
        match &self.kind {
            Kind::Listed(lists) => {
                let query = Query::of(self.alloc, lists, inst.input(i), inst.input(j), k)?;
                let size = size(&query);
                if size > MOST_CLAUSES {
                    return Err(BuildFault::TooLarge(size));
                }
                Ok(build(self.alloc, &query)?)
            }
            Kind::Many(count) => Err(BuildFault::ManyPoints(*count)),
        }
    }

    /// The rounds that a model of the pruned formula tells: they lead from input `i` to input `j`, and their edges are in edge order.
    pub fn decode2(
        &self,
        inst: &Instance,
        i: u32,
        j: u32,
        k: u32,
        truth: &Truth,
    ) -> Result<Rounds, AllocError>
        requires frame { IsHeldFrame inst.now.points self.now }
        requires from { i < length inst.now.inputs }
        requires to { j < length inst.now.inputs }
        requires rounds { k ≤ 400_000 }
        requires model { SatisfiesPruned inst.now.points (input_at inst.now.inputs i) (input_at inst.now.inputs j) k self.now (listed truth.now) }
        ensures told { IfOk result (λ rounds. AreToldByPruned inst.now.points (input_at inst.now.inputs i) (input_at inst.now.inputs j) k self.now (listed truth.now) rounds) }
        ensures rounds { IfOk result (AreRounds inst.now.points (input_at inst.now.inputs i) (input_at inst.now.inputs j) k) }
    {
        let _ = inst.count();
        match &self.kind {
            Kind::Listed(lists) => {
                let query = Query::of(self.alloc, lists, inst.input(i), inst.input(j), k)?;
                decode(self.alloc, &query, truth)
            }
            Kind::Many(_) => unreachable!(),
        }
    }
}
