// The numbers of the variables of a formula.
ghost use Rattle.std.specs.Prelude.{◌≡◌, ◌+◌, ◌<◌, ◌≤◌, length};
ghost use Rattle.formula_law.specs.Formula.{literal, there, made, variable_count};
ghost use Rattle.formula_parts.specs.Building.{IsFrameOfSome, pair_at};
ghost use Rattle.formula_parts.specs.Lists.{edge_at};

use formula_parts::Lists;
use rup_check::Lit;

// Whether the segment with the number `n` is there after `t` rounds, as a literal.
pub(crate) fn there(lists: &Lists, t: u32, n: u32, on: bool) -> Lit
    requires frame { IsFrameOfSome lists.now }
    requires rounds { t ≤ 400_000 }
    requires within { n < length lists.now.segments }
    ensures { result ≡ literal (there lists.now t (edge_at lists.now.segments n)) on }
{
    Lit {
        var: t * lists.segments() + n + 1,
        on,
    }
}

// The place of "the flip with the number `n` is made in round `t`" in an assignment of `k` rounds, counted from 0.
pub(crate) fn place(lists: &Lists, k: u32, t: u32, n: u32) -> u64
    requires frame { IsFrameOfSome lists.now }
    requires rounds { k ≤ 400_000 }
    requires round { t < k }
    requires within { n < length lists.now.flips }
    ensures { result + 1 ≡ made lists.now k t (pair_at lists.now.flips n) }
{
    let before = (u64::from(k) + 1) * u64::from(lists.segments());
    before + u64::from(t) * u64::from(lists.flips()) + u64::from(n)
}

// Whether the flip with the number `n` is made in round `t` of `k`, as a literal.
pub(crate) fn made(lists: &Lists, k: u32, t: u32, n: u32, on: bool) -> Lit
    requires frame { IsFrameOfSome lists.now }
    requires few { variable_count lists.now k ≤ 400_000 }
    requires rounds { k ≤ 400_000 }
    requires round { t < k }
    requires within { n < length lists.now.flips }
    ensures { result ≡ literal (made lists.now k t (pair_at lists.now.flips n)) on }
{
    Lit {
        var: place(lists, k, t, n) as u32 + 1,
        on,
    }
}
