// Inputs by place.
ghost use Rattle.std.specs.Prelude.{◌≡◌, ◌<◌, length};
ghost use Rattle.tri_check.specs.Layouts.{IsTriangulated};
ghost use Rattle.bound_law.specs.Bounds.{input_at};

use tri_check::{Instance, Triang};

/// The input with the place `t`.
pub fn input_of(inst: &Instance, t: u32) -> &Triang
    requires { t < length inst.now.inputs }
    ensures points { result.now.points ≡ inst.now.points }
    ensures edges { result.now.edges ≡ input_at inst.now.inputs t }
    ensures triangulated { IsTriangulated inst.now.points (input_at inst.now.inputs t) }
{
    let _ = inst.count();
    inst.input(t)
}
