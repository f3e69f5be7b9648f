// A directed edge of a mesh.
ghost use Rattle.std.specs.Prelude.{◌↔◌, IsTrue};
ghost use Rattle.edge_table.specs.Edges.{IsBefore};
ghost use Rattle.side_table.specs.Sides.{IsWay};

/// The way from one point to another, with the third corner of the triangle on its left, where there is one.
#[derive(Clone, Copy, Debug)]
pub struct Side {
    pub from: u32,
    pub to: u32,
    pub apex: Option<u32>,
}

impl Side {
    /// Whether the side is the way from `u` to `v`.
    pub fn is_way(self, u: u32, v: u32) -> bool
        ensures { IsTrue result ↔ IsWay self u v }
    {
        self.from == u && self.to == v
    }

    /// Whether the side comes before the way from `u` to `v`.
    pub fn comes_before(self, u: u32, v: u32) -> bool
        ensures { IsTrue result ↔ IsBefore (self.from, self.to) (u, v) }
    {
        self.from < u || (self.from == u && self.to < v)
    }
}
