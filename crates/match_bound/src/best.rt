// The best assignment, with the potentials that show it, and the bound of an assignment.
ghost use Rattle.std.specs.Prelude.{◌≡◌, ℕ, ◌+◌, ◌<◌, ◌≤◌, ◌^◌, None, length, replicate, IfOk, OnOk};
ghost use Rattle.assignment_law.specs.Assignments.{IsAssignment, assignment_sum, assignment_bound, HasGreatestSum};
ghost use Rattle.match_bound.specs.Matchings.{IsMatching, IsStage, IsListed};
ghost use Rattle.match_bound.specs.Potentials.{ArePotentials};
ghost use Rattle.match_bound.specs.Tables.{weight, IsTable};

use crate::labels::Label;
use crate::lists::{Ints, Perm, ints_of};
use crate::search::place;
use crate::table::Weights;
use std::alloc::{AllocError, Global};

// No weight is greater.
const MOST: u64 = 0xffff_ffff;

/// An assignment: what each input goes to, the potentials `u` of the inputs and `v` of what they go to, and the sum
/// of the weights of its pairs.
#[derive(Debug, Drop)]
pub struct Assign {
    pub perm: Perm,
    pub u: Ints,
    pub v: Ints,
    pub sum: u64,
}

// What the pairs weigh together.
fn sum_of(w: &Weights, perm: &Perm) -> u64
    requires { IsAssignment (length w.now) perm.now }
    ensures sum { result ≡ assignment_sum (weight w.now) perm.now }
    ensures small { result < 2 ^ 48 }
{
    let side = w.side();
    let mut sum = 0;
    for i in 0..perm.len() {
        sum += w.weight(i, *perm.at(i) as usize) as u64;
    }
    sum
}

// The whole matching as a list.
fn perm_of(alloc: Global, image: &[Option<usize>]) -> Result<Perm, AllocError>
    requires few { length image.now ≤ 256 }
    requires whole { IsMatching (length image.now) (length image.now) image.now }
    ensures { IfOk result (λ perm. IsListed image.now perm) }
{
    let mut perm = Perm::with_room(alloc, image.len())?;
    for i in 0..image.len() {
        match image[i] {
            Some(j) => perm.push(j as u32)?,
            None => unreachable!(),
        }
    }
    Ok(perm)
}

// Gives every number an input, one after the other.
fn match_all(
    alloc: Global,
    w: &Weights,
    image: &mut [Option<usize>],
    u: &mut [u64],
    v: &mut [u64],
) -> Result<(), AllocError>
    requires { IsStage (weight w.now) (length w.now) 0 image.old u.old v.old }
    ensures { OnOk result (IsStage (weight w.now) (length w.now) (length w.now) image.new u.new v.new) }
{
    let m = w.side() as usize;
    let unknown = Label {
        dist: 0,
        from: None,
        depth: 0,
        done: false,
    };
    let mut labels = vec![in alloc; unknown; m]?;
    let mut reach = vec![in alloc; None; m]?;
    for target in 0..m {
        place(w, image, u, v, target, &mut labels, &mut reach);
    }
    Ok(())
}

// The last stage as an answer.
fn answer(
    alloc: Global,
    w: &Weights,
    image: &[Option<usize>],
    u: &[u64],
    v: &[u64],
) -> Result<Assign, AllocError>
    requires { IsStage (weight w.now) (length w.now) (length w.now) image.now u.now v.now }
    ensures permutation { IfOk result (λ a. IsAssignment (length w.now) a.perm) }
    ensures greatest { IfOk result (λ a. HasGreatestSum (weight w.now) (length w.now) a.perm) }
    ensures sum { IfOk result (λ a. a.sum ≡ assignment_sum (weight w.now) a.perm) }
    ensures potentials { IfOk result (λ a. ArePotentials (weight w.now) (length w.now) a.u a.v a.sum) }
{
    let _side = w.side();
    let perm = perm_of(alloc, image)?;
    let sum = sum_of(w, &perm);
    Ok(Assign {
        perm,
        u: ints_of(alloc, u)?,
        v: ints_of(alloc, v)?,
        sum,
    })
}

fn nowhere(alloc: Global, m: usize) -> Result<Vec<Option<usize>>, AllocError>
    ensures { IfOk result (λ made. made.items ≡ replicate m None) }
{
    vec![in alloc; None; m]
}

fn copies(alloc: Global, x: u64, m: usize) -> Result<Vec<u64>, AllocError>
    ensures { IfOk result (λ made. made.items ≡ replicate m x) }
{
    vec![in alloc; x; m]
}

/// An assignment with the greatest sum, with potentials that show it: no pair of inputs weighs more than its two
/// potentials, and all of them add up to the sum. Which best one is answered is free.
///
/// By shortest augmenting paths: the time grows with the cube of the number of inputs.
pub fn best_assignment(alloc: Global, w: &Weights) -> Result<Assign, AllocError>
    ensures permutation { IfOk result (λ a. IsAssignment (length w.now) a.perm) }
    ensures greatest { IfOk result (λ a. HasGreatestSum (weight w.now) (length w.now) a.perm) }
    ensures sum { IfOk result (λ a. a.sum ≡ assignment_sum (weight w.now) a.perm) }
    ensures potentials { IfOk result (λ a. ArePotentials (weight w.now) (length w.now) a.u a.v a.sum) }
{
    let m = w.side() as usize;
    let mut image = nowhere(alloc, m)?;
    let mut u = copies(alloc, 0, m)?;
    let mut v = copies(alloc, MOST, m)?;
    match_all(alloc, w, &mut image, &mut u, &mut v)?;
    answer(alloc, w, &image, &u, &v)
}

/// The bound of an assignment: half of its sum, rounded up. The time grows with the number of inputs.
pub fn perm_bound(w: &Weights, perm: &Perm) -> u64
    requires { IsAssignment (length w.now) perm.now }
    ensures { result ≡ assignment_bound (weight w.now) perm.now }
{
    (sum_of(w, perm) + 1) / 2
}
