// How many clauses a pruned formula has.
ghost use Rattle.std.specs.Prelude.{◌≡◌, ◌<◌, ◌≤◌, ◌+◌, ◌*◌, length, sum_by};
ghost use Rattle.std.specs.List.{range_with_len};
ghost use Rattle.formula_parts.specs.Building.{pair_at};
ghost use Rattle.pruned_cnf.specs.Queries.{clauses_in};
ghost use Rattle.pruned_cnf.specs.Sizes.{crossing_count, flip_count, change_count, is_live_pair, size_of_flip};

use crate::Query;

// Whether both segments of the pair with the number `m` can be there after `t` rounds.
fn is_live_pair(query: &Query, t: u32, m: u32) -> bool
    requires { m < length query.now.frame.crossings }
    ensures { result ≡ is_live_pair query.now t (pair_at query.now.frame.crossings m) }
{
    let (a, b) = query.lists().crossing(m);
    query.is_live(t, a) && query.is_live(t, b)
}

// Counts the clauses of the pairs that cross, in a layer.
fn crossings_at(query: &Query, t: u32) -> u64
    ensures count { result ≡ crossing_count query.now t }
    ensures few { result ≤ 16_777_216 }
{
    let mut count: u64 = 0;
    for m in 0..query.lists().crossings() {
        count += u64::from(is_live_pair(query, t, m));
    }
    count
}

// Counts the clauses of the flip with the number `n`, in a round.
fn flip_at(query: &Query, t: u32, n: u32) -> u64
    requires round { t < query.now.rounds }
    requires within { n < length query.now.frame.flips }
    ensures count { result ≡ size_of_flip query.now t (pair_at query.now.frame.flips n) }
    ensures few { result ≤ 12 }
{
    let lists = query.lists();
    if !query.is_live_flip(t, n) {
        return 0;
    }
    let (edge, image) = lists.flip(n);
    10 + u64::from(query.is_live(t + 1, edge)) + u64::from(query.is_live(t, image))
}

// Counts the clauses of all flips, in a round.
fn flips_at(query: &Query, t: u32) -> u64
    requires { t < query.now.rounds }
    ensures count { result ≡ flip_count query.now t }
    ensures few { result ≤ 201_326_592 }
{
    let mut count: u64 = 0;
    for n in 0..query.lists().flips() {
        count += flip_at(query, t, n);
    }
    count
}

// Counts the clauses of the segments that leave or come, in a round.
fn changes_at(query: &Query, t: u32) -> u64
    requires { t < query.now.rounds }
    ensures count { result ≡ change_count query.now t }
    ensures few { result ≤ 8192 }
{
    let mut count: u64 = 0;
    for n in 0..query.lists().segments() {
        count += u64::from(query.is_live(t, n)) + u64::from(query.is_live(t + 1, n));
    }
    count
}

// Counts the clauses of the pairs that cross, in `n` layers from layer `t` on.
fn crossings_from(query: &Query, t: u32, n: u32) -> u64
    requires { t + n ≤ 400_001 }
    ensures count { result ≡ sum_by (crossing_count query.now) (range_with_len t n) }
    ensures few { result ≤ n * 16_777_216 }
{
    let mut count: u64 = 0;
    for i in 0..n {
        count += crossings_at(query, t + i);
    }
    count
}

// Counts the clauses of `n` rounds from round `t` on.
fn rounds_from(query: &Query, t: u32, n: u32) -> u64
    requires { t + n ≤ query.now.rounds }
    ensures count { result ≡ sum_by (flip_count query.now) (range_with_len t n) + sum_by (change_count query.now) (range_with_len t n) }
    ensures few { result ≤ n * 201_334_784 }
{
    let _ = query.lists();
    let mut count: u64 = 0;
    for i in 0..n {
        count += flips_at(query, t + i) + changes_at(query, t + i);
    }
    count
}

// Counts the clauses of the pairs that cross, in all layers. Those between the first and the last ones have as many as there are pairs.
fn crossings_in(query: &Query) -> u64
    ensures count { result ≡ sum_by (crossing_count query.now) (range_with_len 0 (query.now.rounds + 1)) }
    ensures few { result ≤ 400_001 * 16_777_216 }
{
    let pairs = u64::from(query.lists().crossings());
    let first = query.most_after_from();
    let last = query.most_before_to();
    if query.rounds() < first + last {
        return crossings_from(query, 0, query.rounds() + 1);
    }
    let middle = query.rounds() - first - last;
    crossings_from(query, 0, first)
        + u64::from(middle + 1) * pairs
        + crossings_from(query, first + middle + 1, last)
}

// Counts the clauses of all rounds. Those between the first and the last ones have twelve for each flip and two for each segment.
fn rounds_in(query: &Query) -> u64
    ensures count { result ≡ sum_by (flip_count query.now) (range_with_len 0 query.now.rounds) + sum_by (change_count query.now) (range_with_len 0 query.now.rounds) }
    ensures few { result ≤ 400_000 * 201_334_784 }
{
    let lists = query.lists();
    let each = 12 * u64::from(lists.flips()) + 2 * u64::from(lists.segments());
    let first = query.most_after_from();
    let last = query.most_before_to();
    if query.rounds() < first + last {
        return rounds_from(query, 0, query.rounds());
    }
    let middle = query.rounds() - first - last;
    rounds_from(query, 0, first)
        + u64::from(middle) * each
        + rounds_from(query, first + middle, last)
}

/// The number of clauses of the pruned formula. Few layers are counted, however many rounds there are: between the first and the last ones all are alike.
pub fn size(query: &Query) -> u64
    ensures { result ≡ length (clauses_in query.now) }
{
    let _ = query.lists();
    let ends = query.from().len() as u64 + query.to().len() as u64;
    ends + crossings_in(query) + rounds_in(query)
}
