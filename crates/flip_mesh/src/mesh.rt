// A triangulation that can be flipped.
ghost use Rattle.std.specs.Prelude.{◌≡◌, ◌<◌, ◌↔◌, ◌⊎◌, length, Contains, IsTrue, IfSome, IfNone, IfOk, OnOk};
ghost use Rattle.edge_table.specs.Edges.{IsAscending};
ghost use Rattle.flip_mesh.specs.Build.{AddsForward, AddsFlip, AreFlippable};
ghost use Rattle.geo_orient.specs.Reach.{IsInReach};
ghost use Rattle.tri_check.specs.Layouts.{IsTriangulated};
ghost use Rattle.tri_theory.specs.Points.{point, AreApart};
ghost use Rattle.tri_theory.specs.Triangulations.{AreJoined};
ghost use Rattle.tri_theory.specs.Flips.{Flips, IsFlip};
ghost use Rattle.flip_mesh.specs.Answers.{IsApex, IsQuadAt};

use crate::build::sides;
use crate::turn::turn;
use edge_table::{Edge, EdgeList, EdgeSeq};
use geo_orient::{Point, cross};
use side_table::{Side, SideTable};
use std::alloc::{AllocError, Global};
use std::marker::Model;
use std::sync::Arc;
use tri_check::{PointList, Triang};

/// The corners of a quadrilateral, counter-clockwise, with `a < c`.
#[derive(Clone, Copy, Debug)]
pub struct Quad {
    pub a: u32,
    pub b: u32,
    pub c: u32,
    pub d: u32,
}

/// The third corners of the triangles at an edge, left and right of the way from its low end to its high one.
#[derive(Clone, Copy, Debug)]
pub struct Wings {
    pub left: Option<u32>,
    pub right: Option<u32>,
}

/// A triangulation that can be flipped, seen as its points and the ascending list of its edges.
///
/// It keeps each edge in both directions, each with the third corner of the triangle on its left. `quad`, `flip`, `has`, `wings` and `apex` take O(1) steps on average.
#[derive(Drop)]
pub struct Mesh {
    points: Arc<PointList>,
    sides: SideTable,
}

impl Model for Mesh {
    ghost use Rattle.tri_check.specs.Layouts.{Layout};

    ghost Value = { Layout };

    ghost use Rattle.flip_mesh.specs.Sides.{edges_of};
    ghost use Rattle.flip_mesh.specs.Faithful.{IsFaithful};

    ghost view = { λ m. record { points = m.points.value; edges = edges_of m.sides } };

    ghost invariant = { λ m. IsFaithful m.points.value m.sides };
}

// Adds the edge of a side that goes from the lower end to the higher one.
fn add_forward(edges: &mut EdgeList, s: Side) -> Result<(), AllocError>
    requires { IsAscending edges.old }
    ensures ascending { IsAscending edges.new }
    ensures added { OnOk result (AddsForward edges.old edges.new s) }
{
    if s.from < s.to {
        match Edge::of(s.from, s.to) {
            Some(e) => {
                edges.insert(e)?;
                Ok(())
            }
            None => Ok(()),
        }
    } else {
        Ok(())
    }
}

impl Mesh {
    /// A mesh of the same points and edges, in O(m log m) steps for m edges.
    pub fn of(alloc: Global, t: &Triang) -> Result<Self, AllocError>
        ensures { IfOk result (λ m. m ≡ t.now) }
    {
        let _ = t.len();
        let items = sides(alloc, t)?;
        let sides = SideTable::of(alloc, &items)?;
        let points = t.points().clone()?;
        Ok(Mesh { points, sides })
    }

    /// Whether the edge is a member.
    pub fn has(&self, e: Edge) -> bool
        ensures { IsTrue result ↔ Contains self.now.edges e }
    {
        self.sides.get(e.low(), e.high()).is_some()
    }

    /// The third corners of the empty triangles at a member, left and right of the way from its low end to its high one. There is none where no point lies on that side.
    pub fn wings(&self, e: Edge) -> Wings
        requires { Contains self.now.edges e }
        ensures left { IsApex self.now.points self.now.edges e.0 e.1 result.left }
        ensures right { IsApex self.now.points self.now.edges e.1 e.0 result.right }
    {
        Wings {
            left: self.apex(e.low(), e.high()),
            right: self.apex(e.high(), e.low()),
        }
    }

    /// The third corner of the empty triangle on the left of the way from `u` to `v`, in O(1) steps on average. There is none where the two aren't joined or no point lies on that side.
    pub fn apex(&self, u: u32, v: u32) -> Option<u32>
        ensures corner { IsApex self.now.points self.now.edges u v result }
        ensures in_range { IfSome result (λ w. (u < length self.now.points) × (v < length self.now.points) × (w < length self.now.points)) }
    {
        match self.sides.get(u, v) {
            Some(s) => s.apex,
            None => None,
        }
    }

    // The point with the number `i`.
    fn point(&self, i: u32) -> Point
        requires { i < length self.now.points }
        ensures point { result ≡ point self.now.points i }
        ensures in_reach { IsInReach result }
    {
        *self.points.at(i as usize)
    }

    // Whether `a` and `c` lie strictly on opposite sides of the line `bd`, and `b` and `d` of the line `ac`.
    fn is_convex(&self, a: u32, b: u32, c: u32, d: u32) -> bool
        requires first { a < length self.now.points }
        requires second { b < length self.now.points }
        requires third { c < length self.now.points }
        requires fourth { d < length self.now.points }
        ensures { IsTrue result ↔ (AreApart self.now.points a c b d × AreApart self.now.points b d a c) }
    {
        cross(self.point(a), self.point(c), self.point(b), self.point(d))
    }

    /// The corners at an edge, exactly where it flips. The edge is `ac`, and its image is `bd`.
    pub fn quad(&self, e: Edge) -> Option<Quad>
        ensures none { IfNone result (¬ Flips self.now.points self.now.edges e) }
        ensures some { IfSome result (IsQuadAt self.now.points self.now.edges e) }
        ensures flips { IfSome result (λ _. Flips self.now.points self.now.edges e) }
    {
        let _ = &self.sides;
        let a = e.low();
        let c = e.high();
        match self.apex(a, c) {
            Some(d) => match self.apex(c, a) {
                Some(b) => {
                    if self.is_convex(a, b, c, d) {
                        Some(Quad { a, b, c, d })
                    } else {
                        None
                    }
                }
                None => None,
            },
            None => None,
        }
    }

    /// Flips an edge, and answers its image. It takes no memory.
    pub fn flip(&mut self, e: Edge) -> Edge
        requires { Flips self.old.points self.old.edges e }
        ensures points { self.new.points ≡ self.old.points }
        ensures edges { IsFlip self.old.points self.old.edges e result self.new.edges }
    {
        match self.quad(e) {
            Some(q) => self.turn(e, q),
            None => unreachable!(),
        }
    }

    // The other diagonal of the quadrilateral.
    fn turn(&mut self, e: Edge, q: Quad) -> Edge
        requires { IsQuadAt self.old.points self.old.edges e q }
        ensures points { self.new.points ≡ self.old.points }
        ensures edges { IsFlip self.old.points self.old.edges e result self.new.edges }
    {
        turn(&mut self.sides, q.a, q.b, q.c, q.d);
        match Edge::of(q.b, q.d) {
            Some(f) => f,
            None => unreachable!(),
        }
    }

    /// The other end of a member at `u`. Which one is free.
    pub fn near(&self, u: u32) -> u32
        requires { u < length self.now.points }
        ensures { AreJoined self.now.edges u result }
    {
        match self.sides.from_point(u) {
            Some(s) => s.to,
            None => unreachable!(),
        }
    }

    // Adds the edge of a side that goes from the lower end to the higher one, where that edge flips.
    fn add_flippable(&self, list: &mut EdgeSeq, s: Side) -> Result<(), AllocError>
        ensures { OnOk result (AddsFlip self.now.points self.now.edges list.old list.new s) }
    {
        if s.from < s.to {
            match Edge::of(s.from, s.to) {
                Some(e) => match self.quad(e) {
                    Some(_) => {
                        list.push(e)?;
                        Ok(())
                    }
                    None => Ok(()),
                },
                None => Ok(()),
            }
        } else {
            Ok(())
        }
    }

    /// The edges that flip, in edge order, in O(m log m) steps for m edges.
    pub fn flippable_list(&self) -> Result<EdgeSeq, AllocError>
        ensures { IfOk result (AreFlippable self.now.points self.now.edges) }
    {
        let sides = self.sides.list()?;
        let mut list = EdgeSeq::make(*sides.allocator());
        for i in 0..sides.len() {
            self.add_flippable(&mut list, sides[i])?;
        }
        Ok(list)
    }

    /// The triangulation, in O(m log m) steps for m edges.
    pub fn to_triang(&self) -> Result<Triang, AllocError>
        ensures { IfOk result (λ t. t ≡ self.now) }
    {
        let sides = self.sides.list()?;
        let mut edges = EdgeList::make(*sides.allocator());
        for i in 0..sides.len() {
            let s = sides[i];
            add_forward(&mut edges, s)?;
        }
        let points = self.points.clone()?;
        Ok(Triang::from_edges(points, edges))
    }

    /// The points.
    pub fn points(&self) -> &Arc<PointList>
        ensures points { result.now.value ≡ self.now.points }
        ensures triangulation { IsTriangulated self.now.points self.now.edges }
    {
        let _ = &self.sides;
        &self.points
    }

    /// An equal mesh, in O(m) steps for m edges. The points are shared, and not copied.
    pub fn copy(&self) -> Result<Self, AllocError>
        ensures { IfOk result (λ m. m ≡ self.now) }
    {
        let sides = self.sides.copy()?;
        let points = self.points.clone()?;
        Ok(Mesh { points, sides })
    }
}
