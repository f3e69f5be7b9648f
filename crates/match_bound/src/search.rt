// The search for the nearest free input, and the change of potentials and matching that it leads to.
ghost use Rattle.std.specs.Prelude.{◌≡◌, ℕ, ◌+◌, ◌<◌, ◌≤◌, ◌^◌, true, Option, Some, None, All, length, slice_index, slice_set};
ghost use Rattle.match_bound.specs.Matchings.{image_of, IsMatching, IsStage};
ghost use Rattle.match_bound.specs.Searches.{label_at, reach_of, rise, fall, IsNearest, IsTree, IsRooted, IsFlipped};
ghost use Rattle.match_bound.specs.Tables.{weight, IsTable};

use crate::labels::{Label, begin, nearest, visit};
use crate::table::Weights;

// Takes every number out of the search.
fn clear(reach: &mut [Option<u64>])
    ensures long { length reach.new ≡ length reach.old }
    ensures none { (j : ℕ) → reach_of reach.new j ≡ None }
{
    for j in 0..reach.len() {
        reach[j] = None;
    }
}

// From a number that no input goes to yet, settles inputs by distance as far as the first one that goes nowhere.
fn search(
    w: &Weights,
    image: &[Option<usize>],
    u: &[u64],
    v: &[u64],
    target: usize,
    labels: &mut [Label],
    reach: &mut [Option<u64>],
) -> usize
    requires table { IsTable w.now }
    requires below { target < length w.now }
    requires stage { IsStage (weight w.now) (length w.now) target image.now u.now v.now }
    requires labels_long { length labels.old ≡ length w.now }
    requires reach_long { length reach.old ≡ length w.now }
    ensures tree { IsTree (weight w.now) (length w.now) target image.now u.now v.now labels.new reach.new }
    ensures nearest { IsNearest labels.new result }
    ensures free { image_of image.now result ≡ None }
{
    begin(w, u, v, target, labels);
    clear(reach);
    reach[target] = Some(0);
    let mut near = nearest(labels);
    while let Some(j) = image[near] {
        reach[j] = Some(labels[near].dist);
        visit(w, u, v, near, j, labels);
        near = nearest(labels);
    }
    near
}

// Raises the potentials of the settled inputs.
fn raise(u: &mut [u64], labels: &[Label], end: u64)
    requires long { length labels.now ≡ length u.old }
    requires small { All (λ x. x < 2 ^ 32) u.old }
    requires end { end < 2 ^ 33 }
    requires settled { (i : ℕ) → (label_at labels.now i).done ≡ true → (label_at labels.now i).dist ≤ end }
    ensures long { length u.new ≡ length u.old }
    ensures risen { (i : ℕ) → slice_index u.new i ≡ slice_index u.old i + rise end (label_at labels.now i) }
{
    for i in 0..u.len() {
        if labels[i].done {
            u[i] += end - labels[i].dist;
        }
    }
}

// Lowers the potentials of the numbers in the search.
fn lower(v: &mut [u64], reach: &[Option<u64>], end: u64)
    requires long { length reach.now ≡ length v.old }
    requires room { (j b : ℕ) → reach_of reach.now j ≡ Some b → (b ≤ end) × (end ≤ b + slice_index v.old j) }
    ensures long { length v.new ≡ length v.old }
    ensures fallen { (j : ℕ) → slice_index v.new j + fall end (reach_of reach.now j) ≡ slice_index v.old j }
{
    for j in 0..v.len() {
        if let Some(start) = reach[j] {
            v[j] -= end - start;
        }
    }
}

// Gives an input what another one goes to, which then goes nowhere.
fn hand_on(image: &mut [Option<usize>], before: usize, hole: usize)
    requires { (before < length image.old) × (hole < length image.old) }
    ensures { image.new ≡ slice_set (slice_set image.old hole (image_of image.old before)) before None }
{
    image[hole] = image[before];
    image[before] = None;
}

// Gives each input on the way back from a free one what the input before it goes to, and the last one the number.
fn flip(image: &mut [Option<usize>], labels: &[Label], end: usize, target: usize)
    requires matching { IsMatching (length labels.now) target image.old }
    requires below { (target < length labels.now) × (end < length labels.now) }
    requires free { image_of image.old end ≡ None }
    requires rooted { IsRooted image.old labels.now }
    ensures matching { IsMatching (length labels.now) (target + 1) image.new }
    ensures flipped { IsFlipped labels.now end target image.old image.new }
{
    let mut hole = end;
    while let Some(before) = labels[hole].from {
        hand_on(image, before, hole);
        hole = before;
    }
    image[hole] = Some(target);
}

/// Gives the number an input, after those below it have theirs: the stage of all that is known goes up by one.
pub fn place(
    w: &Weights,
    image: &mut [Option<usize>],
    u: &mut [u64],
    v: &mut [u64],
    target: usize,
    labels: &mut [Label],
    reach: &mut [Option<u64>],
)
    requires below { target < length w.now }
    requires stage { IsStage (weight w.now) (length w.now) target image.old u.old v.old }
    requires labels_long { length labels.old ≡ length w.now }
    requires reach_long { length reach.old ≡ length w.now }
    ensures stage { IsStage (weight w.now) (length w.now) (target + 1) image.new u.new v.new }
    ensures labels_long { length labels.new ≡ length w.now }
    ensures reach_long { length reach.new ≡ length w.now }
{
    let _side = w.side();
    let end = search(w, image, u, v, target, labels, reach);
    let dist = labels[end].dist;
    raise(u, labels, dist);
    lower(v, reach, dist);
    flip(image, labels, end, target);
}
