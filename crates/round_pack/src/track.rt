// A flip list that can be followed further.
ghost use Rattle.std.specs.Prelude.{◌≡◌, ◌<◌, ◌≤◌, ◌+◌, [], vec_len, vec_capacity, MatchBool, IfOk, OnOk, OnErr};
ghost use Rattle.edge_table.specs.declared.edge.Edge.{Edge};
ghost use Rattle.tri_theory.specs.Flips.{FlipsTo, Flips};
ghost use Rattle.flip_list_law.specs.FlipLists.{IsFlipList, round_count, grouped, last_images, follow};
ghost use Rattle.flip_list_law.specs.Laws.{Replays, AreLastImages};
ghost use Rattle.round_pack.specs.Tracks.{FlipTrack, flip};
ghost use Rattle.round_pack.specs.Follows.{IsAppended, IsCancelled, IsNotCancelled};

use crate::chain::{compacted, link, no_heads, take_out};
use crate::count::{count_in, count_out, rounds_without};
use crate::group::{image_set, round_sets, rounds_of, seq_of};
use crate::number::{next_number, undone_by};
use crate::slot::{Entry, flips_in, number_at, numbers_in};
use edge_table::{Edge, EdgeSeq, Rounds};
use flip_list_law::Flip;
use flip_mesh::Mesh;
use std::alloc::{AllocError, Global};
use std::marker::Model;
use tri_check::Triang;

/// A flip list, seen as the points, the edges where it starts, its flips, the edges where it ends, and how many more flips it can take without memory.
///
/// Each flip stays in the slot that it came into, and one that is taken out leaves an empty slot, so nothing moves. The flips are chained by buckets of their images, of which there are at least as many as flips. So the flip that last made a triangle is found by looking at three chains, in the time of their lengths: constant on average, unless the images crowd into few buckets. Beside that `append`, `cancel` and `rounds_after` take the time of one flip of a mesh.
#[derive(Drop)]
pub struct Track {
    start: Triang,
    mesh: Mesh,
    // The flips with their round numbers. One that is taken out leaves an empty slot.
    slots: Vec<Option<Entry>>,
    // For each bucket of images the slot of its last flip.
    heads: Vec<Option<usize>>,
    // For each flip the slot of the one before it in its bucket.
    before: Vec<Option<usize>>,
    // How many flips each round has.
    counts: Vec<usize>,
    // How many slots were emptied since the last were dropped.
    emptied: usize,
    // How many more the vectors have room for, at least.
    room: usize,
}

impl Model for Track {
    ghost use Rattle.round_pack.specs.Tracks.{FlipTrack};

    ghost Value = { FlipTrack };

    ghost use Rattle.std.specs.Prelude.{◌≡◌, ◌+◌, ◌≤◌, vec_len, vec_capacity};
    ghost use Rattle.round_pack.specs.States.{AreKept};
    ghost use Rattle.round_pack.specs.Chains.{AreChained};
    ghost use Rattle.round_pack.specs.Counts.{AreCounted};
    ghost use Rattle.round_pack.specs.Slots.{flips_in, numbers_in};

    ghost view = { λ t. record { points = t.start.points; start = t.start.edges; flips = flips_in t.slots.items; end = t.mesh.edges; spare = t.room } };

    ghost invariant = { λ t. AreKept t.start t.mesh (flips_in t.slots.items) (numbers_in t.slots.items) × AreChained t.heads.items t.before.items t.slots.items × AreCounted t.counts.items (numbers_in t.slots.items) × (vec_len t.before ≡ vec_len t.slots) × (vec_len t.slots + t.room ≤ vec_capacity t.slots) × (vec_len t.before + t.room ≤ vec_capacity t.before) × (vec_len t.counts + t.room ≤ vec_capacity t.counts) };
}

// The same items, with room for so many more.
fn with_room<T: Copy>(alloc: Global, items: &[T], room: usize) -> Result<Vec<T>, AllocError>
    ensures items { IfOk result (λ v. v.items ≡ items.now) }
    ensures room { IfOk result (λ v. vec_len v + room ≤ vec_capacity v) }
{
    let mut copy = Vec::new(alloc);
    copy.extend_from_slice(items)?;
    copy.reserve(room)?;
    Ok(copy)
}

impl Track {
    /// The empty list.
    pub fn at(alloc: Global, start: &Triang) -> Result<Track, AllocError>
        ensures { IfOk result (λ t. t ≡ record { points = start.now.points; start = start.now.edges; flips = []; end = start.now.edges; spare = 0 }) }
    {
        let heads = no_heads(alloc, start.len().saturating_add(1))?;
        let mesh = Mesh::of(alloc, start)?;
        let start = start.copy()?;
        Ok(Track {
            start,
            mesh,
            slots: Vec::new(alloc),
            heads,
            before: Vec::new(alloc),
            counts: Vec::new(alloc),
            emptied: 0,
            room: 0,
        })
    }

    /// Makes room for at least `k` more flips, and changes nothing else. It takes linear time where it grows, or rebuilds the chains: with twice the buckets once the list may need more, and without the empty slots once they are more than half of all.
    pub fn reserve(&mut self, k: usize) -> Result<(), AllocError>
        ensures points { self.new.points ≡ self.old.points }
        ensures start { self.new.start ≡ self.old.start }
        ensures flips { self.new.flips ≡ self.old.flips }
        ensures end { self.new.end ≡ self.old.end }
        ensures spare { self.old.spare ≤ self.new.spare }
        ensures room { OnOk result (k ≤ self.new.spare) }
    {
        if k > self.room {
            self.slots.reserve(k)?;
            self.before.reserve(k)?;
            self.counts.reserve(k)?;
            self.room = k;
            let buckets = self.heads.len();
            let wanted = self.slots.len().saturating_add(k);
            if wanted > buckets {
                self.rebuild(wanted.saturating_mul(2))?;
            } else if self.emptied > self.slots.len() / 2 {
                self.rebuild(buckets)?;
            }
        }
        Ok(())
    }

    // Chains the flips anew in so many buckets, drops the empty slots, and changes nothing that is seen.
    fn rebuild(&mut self, buckets: usize) -> Result<(), AllocError>
        requires { 0 < buckets }
        ensures { self.new ≡ self.old }
    {
        let alloc = *self.slots.allocator();
        let (slots, heads, before) = compacted(alloc, &self.slots, buckets, self.room)?;
        self.slots = slots;
        self.heads = heads;
        self.before = before;
        self.emptied = 0;
        Ok(())
    }

    // The flip of an edge in the end.
    fn flip_at(&self, e: Edge) -> Flip
        requires { Flips self.now.points self.now.end e }
        ensures edge { result.edge ≡ e }
        ensures image { FlipsTo self.now.points self.now.end e result.image }
    {
        match self.mesh.quad(e) {
            Some(q) => match Edge::of(q.b, q.d) {
                Some(image) => Flip { edge: e, image },
                None => unreachable!(),
            },
            None => unreachable!(),
        }
    }

    /// Appends the flip of an edge, and answers its image. It takes no memory.
    pub fn append(&mut self, e: Edge) -> Edge
        requires flips { Flips self.old.points self.old.end e }
        requires spare { 0 < self.old.spare }
        ensures { IsAppended self.old self.new e result }
    {
        let image = self.mesh.flip(e);
        let flip = Flip { edge: e, image };
        let number = next_number(&self.heads, &self.before, &self.slots, &flip);
        let entry = Entry { flip, number };
        count_in(&mut self.counts, &self.slots, number);
        link(&mut self.heads, &mut self.before, &entry);
        self.slots.push_reserved(Some(entry));
        self.room -= 1;
        image
    }

    /// Takes out the one flip that last made both triangles at an edge that flips. The answer is false exactly where there is no such flip. It takes no memory.
    pub fn cancel(&mut self, e: Edge) -> bool
        requires { Flips self.old.points self.old.end e }
        ensures { (f : Edge) → FlipsTo self.old.points self.old.end e f → MatchBool result (IsCancelled self.old self.new e f) (IsNotCancelled self.old self.new e f) }
    {
        let flip = self.flip_at(e);
        match undone_by(&self.heads, &self.before, &self.slots, &flip) {
            None => false,
            Some(place) => {
                self.mesh.flip(e);
                let number = number_at(&self.slots, place);
                count_out(&mut self.counts, number);
                take_out(&mut self.heads, &mut self.before, &mut self.slots, place);
                self.emptied = self.emptied.saturating_add(1);
                true
            }
        }
    }

    /// The greatest round number, or 0, in constant time.
    pub fn rounds(&self) -> u64
        ensures { result ≡ round_count self.now.flips }
    {
        let _ = &self.mesh;
        self.counts.len() as u64
    }

    /// What `rounds` would answer once an edge that flips was followed.
    pub fn rounds_after(&self, e: Edge) -> u64
        requires { Flips self.now.points self.now.end e }
        ensures { (f : Edge) → FlipsTo self.now.points self.now.end e f → result ≡ round_count (follow self.now.flips (flip e f)) }
    {
        let flip = self.flip_at(e);
        match undone_by(&self.heads, &self.before, &self.slots, &flip) {
            Some(place) => rounds_without(&self.counts, number_at(&self.slots, place)),
            None => {
                let most = self.counts.len() as u64;
                let next = next_number(&self.heads, &self.before, &self.slots, &flip);
                if most < next { next } else { most }
            }
        }
    }

    /// The rounds: the edges of the flips by round number, each round in edge order. They are a schedule from the start to the end, since each flip flips where the earlier ones led.
    pub fn grouped(&self) -> Result<Rounds, AllocError>
        ensures leads { IsFlipList self.now.points self.now.start self.now.flips self.now.end }
        ensures rounds { IfOk result (λ r. r ≡ grouped self.now.flips) }
        ensures schedule { Replays self.now.points self.now.start self.now.flips self.now.end }
    {
        let _ = &self.mesh;
        let alloc = *self.slots.allocator();
        let flips = flips_in(alloc, &self.slots)?;
        let numbers = numbers_in(alloc, &self.slots)?;
        let sets = round_sets(alloc, &flips, &numbers)?;
        rounds_of(alloc, &sets)
    }

    /// The images of the last round in edge order, or none.
    pub fn last_images(&self) -> Result<EdgeSeq, AllocError>
        ensures images { IfOk result (λ s. s ≡ last_images self.now.flips) }
        ensures members { AreLastImages self.now.flips self.now.end }
    {
        let _ = &self.mesh;
        let alloc = *self.slots.allocator();
        let flips = flips_in(alloc, &self.slots)?;
        let numbers = numbers_in(alloc, &self.slots)?;
        let set = image_set(alloc, &flips, &numbers, self.counts.len() as u64)?;
        seq_of(alloc, &set)
    }

    /// The end.
    pub fn end(&self) -> Result<Triang, AllocError>
        ensures points { IfOk result (λ t. t.points ≡ self.now.points) }
        ensures edges { IfOk result (λ t. t.edges ≡ self.now.end) }
    {
        let _ = &self.slots;
        self.mesh.to_triang()
    }

    /// An equal track, in time linear in its edges and flips.
    pub fn copy(&self) -> Result<Track, AllocError>
        ensures { IfOk result (λ t. t ≡ self.now) }
    {
        let alloc = *self.slots.allocator();
        let start = self.start.copy()?;
        let mesh = self.mesh.copy()?;
        let slots = with_room(alloc, &self.slots, self.room)?;
        let heads = with_room(alloc, &self.heads, 0)?;
        let before = with_room(alloc, &self.before, self.room)?;
        let counts = with_room(alloc, &self.counts, self.room)?;
        Ok(Track {
            start,
            mesh,
            slots,
            heads,
            before,
            counts,
            emptied: self.emptied,
            room: self.room,
        })
    }
}
