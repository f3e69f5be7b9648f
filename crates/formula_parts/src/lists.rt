// The lists of a frame.
ghost use Rattle.std.specs.Prelude.{◌≡◌, ◌<◌, ◌≤◌, length, Contains, IfOk};
ghost use Rattle.formula_law.specs.Frames.{IsFrame};
ghost use Rattle.formula_parts.specs.Building.{pair_at};
ghost use Rattle.formula_parts.specs.Lists.{IsLinkBelow, edge_at, linked};

use crate::crossings::crossings;
use crate::flips::flips;
use crate::segments::segments;
use crate::tables::make_tables;
use edge_table::Edge;
use std::alloc::{AllocError, Global};
use std::marker::Model;
use tri_check::Instance;

/// The segments of at most 64 points, the pairs of them that cross and the flips that a triangulation may have, all in order. Two segments are kept as their numbers, which count from 0.
#[derive(Drop)]
pub struct Lists {
    segments: Vec<Edge>,
    crossings: Vec<(u32, u32)>,
    flips: Vec<(u32, u32)>,
}

impl Model for Lists {
    ghost use Rattle.formula_law.specs.Frames.{Frame};
    ghost use Rattle.formula_parts.specs.Lists.{frame_by, AreLists};

    ghost Value = { Frame };

    ghost view = { λ l. frame_by l.segments.items l.crossings.items l.flips.items };

    ghost invariant = { λ l. AreLists l.segments.items l.crossings.items l.flips.items };
}

impl Lists {
    /// Those of the points of an instance. The time grows with the fourth power of their number, and 8 bytes are kept for each crossing and each flip.
    pub fn of(alloc: Global, inst: &Instance) -> Result<Self, AllocError>
        requires { length inst.now.points ≤ 64 }
        ensures { IfOk result (IsFrame inst.now.points) }
    {
        let tables = make_tables(alloc, inst)?;
        let segments = segments(alloc, inst)?;
        let crossings = crossings(alloc, inst, &tables, &segments)?;
        let flips = flips(alloc, inst, &tables, &segments)?;
        Ok(Lists {
            segments,
            crossings,
            flips,
        })
    }

    /// The number of segments.
    pub fn segments(&self) -> u32
        ensures count { result ≡ length self.now.segments }
        ensures few { result ≤ 4096 }
    {
        self.segments.len() as u32
    }

    /// The number of pairs that cross.
    pub fn crossings(&self) -> u32
        ensures count { result ≡ length self.now.crossings }
        ensures few { result ≤ 16_777_216 }
    {
        self.crossings.len() as u32
    }

    /// The number of flips.
    pub fn flips(&self) -> u32
        ensures count { result ≡ length self.now.flips }
        ensures few { result ≤ 16_777_216 }
    {
        self.flips.len() as u32
    }

    /// The segment with a number.
    pub fn segment(&self, n: u32) -> Edge
        requires { n < length self.now.segments }
        ensures { result ≡ edge_at self.now.segments n }
    {
        self.segments[n as usize]
    }

    /// The number of a segment, in logarithmic time.
    pub fn number(&self, e: Edge) -> u32
        requires { Contains self.now.segments e }
        ensures within { result < length self.now.segments }
        ensures there { edge_at self.now.segments result ≡ e }
    {
        match self.segments.binary_search(&e) {
            Ok(n) => n as u32,
            Err(_) => unreachable!(),
        }
    }

    /// The numbers of the two segments of a pair that cross, the lower one first.
    pub fn crossing(&self, n: u32) -> (u32, u32)
        requires { n < length self.now.crossings }
        ensures pair { pair_at self.now.crossings n ≡ linked self.now.segments result }
        ensures within { IsLinkBelow (length self.now.segments) result }
    {
        self.crossings[n as usize]
    }

    /// The numbers of the edge and the image of a flip.
    pub fn flip(&self, n: u32) -> (u32, u32)
        requires { n < length self.now.flips }
        ensures pair { pair_at self.now.flips n ≡ linked self.now.segments result }
        ensures within { IsLinkBelow (length self.now.segments) result }
    {
        self.flips[n as usize]
    }
}
