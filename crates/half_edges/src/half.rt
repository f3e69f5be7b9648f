// One half edge.

/// An edge in one of its directions.
#[derive(Clone, Copy, Debug, PartialEq, Eq)]
pub struct HalfEdge {
    pub from: u32,
    pub to: u32,
    /// The place of the edge in the triangulation's list of edges.
    pub edge: usize,
    /// The triangle on the left, where there is one.
    pub beyond: Option<Beyond>,
}

/// The triangle on the left of a half edge.
#[derive(Clone, Copy, Debug, PartialEq, Eq)]
pub struct Beyond {
    /// The third corner.
    pub apex: u32,
    /// The place of the half edge from the begin to the third corner.
    pub near: usize,
    /// The place of the half edge from the third corner to the end.
    pub far: usize,
}
