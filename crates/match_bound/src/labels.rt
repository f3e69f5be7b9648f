// What a search knows of each input.
ghost use Rattle.std.specs.Prelude.{◌≡◌, ℕ, ◌+◌, ◌<◌, ◌≤◌, ◌^◌, ◌≢◌, ◌-◌, false, List, length, slice_index};
ghost use Rattle.match_bound.specs.Matchings.{Covers};
ghost use Rattle.match_bound.specs.Searches.{label_at, relaxed as relaxed_label, settled, open_count, IsFirst, Relaxes, IsNearest, NearestBefore};
ghost use Rattle.match_bound.specs.Tables.{weight};

use crate::table::Weights;

/// The distance of an input, the input by way of which it was reached (none for the start), in how many such steps,
/// and whether it is settled, so that all of this is final. The steps show that the way back comes to its start.
#[derive(Clone, Copy, Debug)]
pub struct Label {
    pub dist: u64,
    pub from: Option<usize>,
    pub depth: usize,
    pub done: bool,
}

/// How much the potentials of a pair are above its weight.
pub fn slack(w: &Weights, u: &[u64], v: &[u64], i: usize, j: usize) -> u64
    requires covers { Covers (weight w.now) (length w.now) u.now v.now }
    requires below { (i < length w.now) × (j < length w.now) }
    ensures exact { result + weight w.now i j ≡ slice_index u.now i + slice_index v.now j }
    ensures small { result < 2 ^ 33 }
{
    u[i] + v[j] - w.weight(i, j) as u64
}

/// Labels each input by its pair with the number at which a search begins.
pub fn begin(w: &Weights, u: &[u64], v: &[u64], target: usize, labels: &mut [Label])
    requires covers { Covers (weight w.now) (length w.now) u.now v.now }
    requires below { target < length w.now }
    requires long { length labels.old ≡ length w.now }
    ensures long { length labels.new ≡ length w.now }
    ensures first { (i : ℕ) → i < length w.now → IsFirst (weight w.now) u.now v.now target i (label_at labels.new i) }
{
    for i in 0..labels.len() {
        labels[i] = Label {
            dist: slack(w, u, v, i, target),
            from: None,
            depth: 0,
            done: false,
        };
    }
}

// The label that a way of this length leaves.
fn relaxed(label: Label, dist: u64, from: usize, depth: usize) -> Label
    ensures { result ≡ relaxed_label label dist from depth }
{
    if !label.done && dist < label.dist {
        Label {
            dist,
            from: Some(from),
            depth,
            done: false,
        }
    } else {
        label
    }
}

// Shortens the distance of each open input that is nearer by way of a settled one and the number that it goes to.
fn relax(w: &Weights, u: &[u64], v: &[u64], k: usize, j: usize, near: Label, labels: &mut [Label])
    requires covers { Covers (weight w.now) (length w.now) u.now v.now }
    requires below { j < length w.now }
    requires long { length labels.old ≡ length w.now }
    requires small { (near.dist < 2 ^ 33) × (near.depth < 2 ^ 32) }
    ensures long { length labels.new ≡ length w.now }
    ensures relaxes { (i : ℕ) → i < length w.now → Relaxes (weight w.now) u.now v.now k j near i (label_at labels.old i) (label_at labels.new i) }
    ensures open { open_count labels.new ≡ open_count labels.old }
{
    for i in 0..labels.len() {
        let dist = near.dist + slack(w, u, v, i, j);
        labels[i] = relaxed(labels[i], dist, k, near.depth + 1);
    }
}

/// Settles an open input, and relaxes the others by way of the number that it goes to.
pub fn visit(w: &Weights, u: &[u64], v: &[u64], k: usize, j: usize, labels: &mut [Label])
    requires covers { Covers (weight w.now) (length w.now) u.now v.now }
    requires below { (k < length w.now) × (j < length w.now) }
    requires long { length labels.old ≡ length w.now }
    requires open { (label_at labels.old k).done ≡ false }
    requires small { ((label_at labels.old k).dist < 2 ^ 33) × ((label_at labels.old k).depth < 2 ^ 32) }
    ensures long { length labels.new ≡ length w.now }
    ensures settled { label_at labels.new k ≡ settled (label_at labels.old k) }
    ensures others { (i : ℕ) → i < length w.now → i ≢ k → Relaxes (weight w.now) u.now v.now k j (label_at labels.old k) i (label_at labels.old i) (label_at labels.new i) }
    ensures fewer { open_count labels.new + 1 ≡ open_count labels.old }
{
    let near = labels[k];
    labels[k] = Label { done: true, ..near };
    relax(w, u, v, k, j, near, labels);
}

// The nearer of an open input that was found before and this one.
fn nearer(labels: &[Label], found: Option<usize>, i: usize) -> Option<usize>
    requires below { i < length labels.now }
    requires before { NearestBefore labels.now i found }
    ensures { NearestBefore labels.now (i + 1) result }
{
    if labels[i].done {
        return found;
    }
    match found {
        Some(k) => {
            if labels[i].dist < labels[k].dist {
                Some(i)
            } else {
                Some(k)
            }
        },
        None => Some(i),
    }
}

/// The open input with the least distance.
pub fn nearest(labels: &[Label]) -> usize
    requires { (i : ℕ) × (i < length labels.now) × ((label_at labels.now i).done ≡ false) }
    ensures { IsNearest labels.now result }
{
    let mut found = None;
    for i in 0..labels.len() {
        found = nearer(labels, found, i);
    }
    match found {
        Some(i) => i,
        None => unreachable!(),
    }
}
