// What a pruned formula is asked of, with the digits of all crossings.
ghost use Rattle.std.specs.Prelude.{◌≡◌, ◌<◌, ◌≤◌, ◌+◌, ◌&&◌, length, Contains, All, IfOk};
ghost use Rattle.std.specs.List.{list_all};
ghost use Rattle.edge_table.specs.Edges.{edge};
ghost use Rattle.formula_law.specs.Formula.{sides};
ghost use Rattle.formula_law.specs.Frames.{IsFrame};
ghost use Rattle.formula_parts.specs.Building.{pair_at, four};
ghost use Rattle.formula_parts.specs.Lists.{edge_at, pair_of};
ghost use Rattle.pruned_cnf.specs.Queries.{IsQuery, IsMostDigits, live_in, is_live_flip_in, stays_in};

use crate::counting::crossing_digits;
use edge_table::Edge;
use formula_parts::Lists;
use std::alloc::{AllocError, Global};
use std::marker::Model;
use tri_check::Triang;

/// Two triangulations of at most 64 points, with the frame of the points, and the number of rounds in which the first is to lead to the second. For each segment it keeps how many binary digits the number of its crossings with each of the two has.
#[derive(Drop)]
pub struct Query<'a> {
    lists: &'a Lists,
    from: &'a Triang,
    to: &'a Triang,
    rounds: u32,
    after_from: Vec<u32>,
    before_to: Vec<u32>,
}

impl<'a> Model for Query<'a> {
    ghost use Rattle.pruned_cnf.specs.Queries.{Query};
    ghost use Rattle.pruned_cnf.specs.Crossed.{IsHeld};

    ghost Value = { Query };

    ghost view = { λ q. record { points = q.from.now.points; frame = q.lists.now; from = q.from.now.edges; to = q.to.now.edges; rounds = q.rounds } };

    ghost invariant = { λ q. IsHeld (record { points = q.from.now.points; frame = q.lists.now; from = q.from.now.edges; to = q.to.now.edges; rounds = q.rounds }) q.to.now.points q.after_from.items q.before_to.items };
}

// The greatest of these numbers of digits, and 0 of none.
fn most(digits: &[u32]) -> u32
    requires { All (λ d. d ≤ 32) digits.now }
    ensures most { All (λ d. d ≤ result) digits.now }
    ensures few { result ≤ 32 }
{
    let mut most = 0;
    for i in 0..digits.len() {
        most = most.max(digits[i]);
    }
    most
}

impl<'a> Query<'a> {
    /// The query of two triangulations. Its time is that of the frame's crossings, each of which is looked up in both, and 8 bytes are kept for each segment.
    pub fn of(
        alloc: Global,
        lists: &'a Lists,
        from: &'a Triang,
        to: &'a Triang,
        rounds: u32,
    ) -> Result<Query<'a>, AllocError>
        requires few { length from.now.points ≤ 64 }
        requires same { to.now.points ≡ from.now.points }
        requires frame { IsFrame from.now.points lists.now }
        requires rounds { rounds ≤ 400_000 }
        ensures { IfOk result (λ q. q ≡ record { points = from.entry.now.points; frame = lists.entry.now; from = from.entry.now.edges; to = to.entry.now.edges; rounds = rounds }) }
    {
        let _ = (from.len(), to.len());
        let after_from = crossing_digits(alloc, lists, from)?;
        let before_to = crossing_digits(alloc, lists, to)?;
        Ok(Query {
            lists,
            from,
            to,
            rounds,
            after_from,
            before_to,
        })
    }

    /// The lists of the frame.
    pub fn lists(&self) -> &Lists
        ensures lists { result.now ≡ self.now.frame }
        ensures query { IsQuery self.now }
    {
        self.lists
    }

    /// The triangulation that the rounds begin with.
    pub fn from(&self) -> &Triang
        ensures points { result.now.points ≡ self.now.points }
        ensures edges { result.now.edges ≡ self.now.from }
    {
        self.from
    }

    /// The triangulation that they end with.
    pub fn to(&self) -> &Triang
        ensures points { result.now.points ≡ self.now.points }
        ensures edges { result.now.edges ≡ self.now.to }
    {
        self.to
    }

    /// The number of rounds.
    pub fn rounds(&self) -> u32
        ensures { result ≡ self.now.rounds }
    {
        self.rounds
    }

    /// Whether the segment with the number `n` can be there after `t` rounds.
    pub fn is_live(&self, t: u32, n: u32) -> bool
        requires { n < length self.now.frame.segments }
        ensures { result ≡ live_in self.now t (edge_at self.now.frame.segments n) }
    {
        let n = n as usize;
        self.after_from[n] <= t
            && u64::from(self.before_to[n]) + u64::from(t) <= u64::from(self.rounds)
    }

    /// Whether the flip with the number `n` can be made in round `t`: its edge can be there before the round, its image after it, and its four sides before and after.
    pub fn is_live_flip(&self, t: u32, n: u32) -> bool
        requires round { t < self.now.rounds }
        requires within { n < length self.now.frame.flips }
        ensures { result ≡ is_live_flip_in self.now t (pair_at self.now.frame.flips n) }
    {
        let (edge, image) = self.lists.flip(n);
        self.are_ends_live(t, edge, image)
            && self.are_sides_live(t, self.lists.segment(edge), self.lists.segment(image))
    }

    // Whether the segment with the number `edge` can be there before round `t`, and that with the number `image` after it.
    fn are_ends_live(&self, t: u32, edge: u32, image: u32) -> bool
        requires round { t < self.now.rounds }
        requires edge { edge < length self.now.frame.segments }
        requires image { image < length self.now.frame.segments }
        ensures { result ≡ (live_in self.now t (edge_at self.now.frame.segments edge) && live_in self.now (t + 1) (edge_at self.now.frame.segments image)) }
    {
        let _ = &self.lists;
        self.is_live(t, edge) && self.is_live(t + 1, image)
    }

    // Whether the segment of `a` and `b` can be there before round `t` and after it.
    fn is_side_live(&self, t: u32, a: u32, b: u32) -> bool
        requires round { t < self.now.rounds }
        requires segment { Contains self.now.frame.segments (edge a b) }
        ensures { result ≡ stays_in self.now t (edge a b) }
    {
        match Edge::of(a, b) {
            Some(e) => {
                let n = self.lists.number(e);
                self.are_ends_live(t, n, n)
            }
            None => unreachable!(),
        }
    }

    // Whether the segments from `a` to both ends of `f` can.
    fn are_two_live(&self, t: u32, a: u32, f: Edge) -> bool
        requires round { t < self.now.rounds }
        requires low { Contains self.now.frame.segments (edge a f.0) }
        requires high { Contains self.now.frame.segments (edge a f.1) }
        ensures { result ≡ (stays_in self.now t (edge a f.0) && stays_in self.now t (edge a f.1)) }
    {
        self.is_side_live(t, a, f.low()) && self.is_side_live(t, a, f.high())
    }

    // Whether those from each end of `e` to each end of `f` can.
    fn are_four_live(&self, t: u32, e: Edge, f: Edge) -> bool
        requires round { t < self.now.rounds }
        requires segments { All (λ s. Contains self.now.frame.segments s) (four e f) }
        ensures { result ≡ list_all (stays_in self.now t) (four e f) }
    {
        self.are_two_live(t, e.low(), f) && self.are_two_live(t, e.high(), f)
    }

    // Whether the four sides of the flip of `e` to `f` can.
    fn are_sides_live(&self, t: u32, e: Edge, f: Edge) -> bool
        requires round { t < self.now.rounds }
        requires flip { Contains self.now.frame.flips (pair_of e f) }
        ensures { result ≡ list_all (stays_in self.now t) (sides self.now.frame (pair_of e f)) }
    {
        let _ = &self.lists;
        if e.low() < f.low() {
            self.are_four_live(t, e, f)
        } else {
            self.are_four_live(t, f, e)
        }
    }

    /// The greatest number of digits of crossings of a segment with the first triangulation. So after as many rounds all may be there.
    pub fn most_after_from(&self) -> u32
        ensures most { IsMostDigits self.now self.now.from result }
        ensures few { result ≤ 32 }
    {
        most(&self.after_from)
    }

    /// The same of the second triangulation.
    pub fn most_before_to(&self) -> u32
        ensures most { IsMostDigits self.now self.now.to result }
        ensures few { result ≤ 32 }
    {
        most(&self.before_to)
    }
}
