// Chains of places: each bucket has the last of its places, and each place the one before it in its bucket.
ghost use Rattle.std.specs.Prelude.{◌≡◌, ◌+◌, ◌<◌, ◌++◌, ◌∷◌, [], Some, None, List, length, slice_index_or, slice_set, vec_len, vec_capacity, IfOk};
ghost use Rattle.side_table.specs.Chains.{Key, AreChained, IsChained, IsNext};

use std::alloc::{AllocError, Global};

// So many buckets without places.
pub(crate) fn no_heads(alloc: Global, count: usize) -> Result<Vec<Option<usize>>, AllocError>
    ensures long { IfOk result (λ v. length v.items ≡ count) }
    ensures chained { IfOk result (λ v. AreChained v.items [] []) }
{
    let mut heads = Vec::new(alloc);
    heads.reserve(count)?;
    let mut left = count;
    while left > 0 {
        heads.push(None)?;
        left -= 1;
    }
    Ok(heads)
}

// Puts the next place into a bucket.
pub(crate) fn link(heads: &mut Vec<Option<usize>>, before: &mut Vec<Option<usize>>, b: usize)
    requires bucket { b < length heads.old.items }
    requires room { vec_len before.old < vec_capacity before.old }
    ensures chained { (keys : List Key) → AreChained heads.old.items before.old.items keys → AreChained heads.new.items before.new.items (keys ++ Some b ∷ []) }
    ensures heads_len { length heads.new.items ≡ length heads.old.items }
{
    let place = before.len();
    before.push_reserved(heads[b]);
    heads[b] = Some(place);
}

// The next place of a bucket after this one.
fn next_after(
    heads: &[Option<usize>],
    before: &[Option<usize>],
    b: usize,
    place: usize,
) -> Option<usize>
    requires chained { IsChained heads.now before.now }
    requires bucket { b < length heads.now }
    requires within { place < length before.now }
    ensures { (keys : List Key) → AreChained heads.now before.now keys → IsNext b keys place result }
{
    let mut next = None;
    let mut at = heads[b];
    while let Some(i) = at {
        if i <= place {
            break;
        }
        next = at;
        at = before[i];
    }
    next
}

// Takes a place out of its bucket.
pub(crate) fn unlink(
    heads: &mut Vec<Option<usize>>,
    before: &mut Vec<Option<usize>>,
    b: usize,
    place: usize,
)
    requires chained { IsChained heads.old.items before.old.items }
    requires bucket { b < length heads.old.items }
    requires within { place < length before.old.items }
    ensures chained { (keys : List Key) → AreChained heads.old.items before.old.items keys → slice_index_or keys place None ≡ Some b → AreChained heads.new.items before.new.items (slice_set keys place None) }
    ensures heads_len { length heads.new.items ≡ length heads.old.items }
    ensures len { length before.new.items ≡ length before.old.items }
{
    let earlier = before[place];
    match next_after(heads, before, b, place) {
        Some(next) => before[next] = earlier,
        None => heads[b] = earlier,
    }
}

// Puts a place into a bucket, where it is in none.
pub(crate) fn link_at(
    heads: &mut Vec<Option<usize>>,
    before: &mut Vec<Option<usize>>,
    b: usize,
    place: usize,
)
    requires chained { IsChained heads.old.items before.old.items }
    requires bucket { b < length heads.old.items }
    requires within { place < length before.old.items }
    ensures chained { (keys : List Key) → AreChained heads.old.items before.old.items keys → slice_index_or keys place None ≡ None → AreChained heads.new.items before.new.items (slice_set keys place (Some b)) }
    ensures heads_len { length heads.new.items ≡ length heads.old.items }
    ensures len { length before.new.items ≡ length before.old.items }
{
    match next_after(heads, before, b, place) {
        Some(next) => {
            before[place] = before[next];
            before[next] = Some(place);
        }
        None => {
            before[place] = heads[b];
            heads[b] = Some(place);
        }
    }
}
