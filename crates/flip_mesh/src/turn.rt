// The flip of an edge, on the sides of its two triangles.
ghost use Rattle.std.specs.Prelude.{◌≡◌, ℕ};
ghost use Rattle.side_table.specs.Sides.{side, HasSide, IsWay, PutsSide};
ghost use Rattle.flip_mesh.specs.Sides.{CanTurn, IsTurned};

use side_table::{Side, SideTable};

// Puts the way from `from` to `to`, with this third corner, in the place of that from `u` to `v`.
fn put(sides: &mut SideTable, u: u32, v: u32, from: u32, to: u32, apex: u32)
    requires there { HasSide sides.old u v }
    requires fresh { (x : ℕ) → (y : ℕ) → HasSide sides.old x y → IsWay (side from to (Some apex)) x y → (x ≡ u) × (y ≡ v) }
    ensures { PutsSide sides.old sides.new u v (side from to (Some apex)) }
{
    sides.put(
        u,
        v,
        Side {
            from,
            to,
            apex: Some(apex),
        },
    );
}

// Gives the way from `from` to `to` another third corner.
fn set(sides: &mut SideTable, from: u32, to: u32, apex: u32)
    requires { HasSide sides.old from to }
    ensures { PutsSide sides.old sides.new from to (side from to (Some apex)) }
{
    sides.set(Side {
        from,
        to,
        apex: Some(apex),
    });
}

// The triangles `a`, `b`, `d` and `b`, `c`, `d` in place of `a`, `b`, `c` and `a`, `c`, `d`.
pub(crate) fn turn(sides: &mut SideTable, a: u32, b: u32, c: u32, d: u32)
    requires { CanTurn sides.old a b c d }
    ensures { IsTurned sides.old sides.new a b c d }
{
    put(sides, a, c, b, d, a);
    put(sides, c, a, d, b, c);
    set(sides, a, b, d);
    set(sides, b, c, d);
    set(sides, c, d, b);
    set(sides, d, a, b);
}
