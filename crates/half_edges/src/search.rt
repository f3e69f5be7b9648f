// Ways in an ascending list, found by halving it.
ghost use Rattle.std.specs.Prelude.{◌≡◌, Some, Contains, IfOk, IfErr, slice_get};
ghost use Rattle.edge_table.specs.Edges.{IsAscending};
ghost use Rattle.edge_table.specs.Order.{IsAt, BelongsAt};
ghost use Rattle.half_edges.specs.Graphs.{IsBegin};

// Where the way from `u` to `v` is, or where it belongs.
fn search(ways: &[(u32, u32)], u: u32, v: u32) -> Result<usize, usize>
    requires { IsAscending ways.now }
    ensures found { IfOk result (IsAt ways.now (u, v)) }
    ensures belongs { IfErr result (BelongsAt ways.now (u, v)) }
{
    ways.binary_search(&(u, v))
}

// Where the way from `u` to `v` is.
pub(crate) fn place(ways: &[(u32, u32)], u: u32, v: u32) -> usize
    requires ascending { IsAscending ways.now }
    requires there { Contains ways.now (u, v) }
    ensures { slice_get ways.now result ≡ Some (u, v) }
{
    match search(ways, u, v) {
        Ok(i) => i,
        Err(_) => unreachable!(),
    }
}

// How many ways come from points before `u`.
pub(crate) fn begin_of(ways: &[(u32, u32)], u: u32) -> usize
    requires { IsAscending ways.now }
    ensures { IsBegin ways.now u result }
{
    match search(ways, u, 0) {
        Ok(i) => i,
        Err(i) => i,
    }
}
