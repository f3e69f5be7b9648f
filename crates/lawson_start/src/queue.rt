// A set of edges whose least one is at hand.
ghost use Rattle.std.specs.Prelude.{◌≡◌, [], Contains, IfNone, IfSome, OnOk};
ghost use Rattle.edge_table.specs.declared.edge.Edge.{Edge};
ghost use Rattle.edge_table.specs.Edges.{AddsEdge, RemovesEdge};
ghost use Rattle.lawson_start.specs.Steps.{IsFirst};

use edge_table::Edge;
use std::alloc::{AllocError, Global};
use std::collections::BTreeSet;
use std::marker::Model;

// A set of edges, seen as a list of its members.
#[derive(Drop)]
pub(crate) struct EdgeQueue {
    edges: BTreeSet<Edge, Global>,
}

impl Model for EdgeQueue {
    ghost use Rattle.std.specs.Prelude.{List};
    ghost use Rattle.edge_table.specs.declared.edge.Edge.{Edge};

    ghost Value = { List Edge };

    ghost view = { λ q. q.edges.keys };
}

impl EdgeQueue {
    pub(crate) fn make(alloc: Global) -> Self
        ensures { result ≡ [] }
    {
        EdgeQueue {
            edges: BTreeSet::new(alloc),
        }
    }

    pub(crate) fn insert(&mut self, e: Edge) -> Result<(), AllocError>
        ensures { OnOk result (AddsEdge self.old self.new e) }
    {
        self.edges.insert(e)?;
        Ok(())
    }

    pub(crate) fn remove(&mut self, e: Edge)
        ensures { RemovesEdge self.old self.new e }
    {
        self.edges.remove(&e);
    }

    // The least member.
    pub(crate) fn first(&self) -> Option<Edge>
        ensures none { IfNone result ((e : Edge) → ¬ Contains self.now e) }
        ensures some { IfSome result (IsFirst self.now) }
    {
        match self.edges.first() {
            Some(e) => Some(*e),
            None => None,
        }
    }
}
