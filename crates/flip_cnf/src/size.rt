// How many clauses and variables a formula has.
ghost use Rattle.std.specs.Prelude.{◌≡◌, ◌≤◌};
ghost use Rattle.formula_law.specs.Formula.{clause_count, variable_count};

use formula_parts::Lists;

// The number of clauses of `k` rounds.
pub(crate) fn clauses(lists: &Lists, k: u32) -> u64
    requires { k ≤ 400_000 }
    ensures { result ≡ clause_count lists.now k }
{
    let s = u64::from(lists.segments());
    let c = u64::from(lists.crossings());
    let w = u64::from(lists.flips());
    let k = u64::from(k);
    2 * s + (k + 1) * c + k * (12 * w + 2 * s)
}

// The number of variables of `k` rounds, where there are few.
pub(crate) fn variables(lists: &Lists, k: u32) -> u32
    requires few { clause_count lists.now k ≤ 400_000 }
    requires rounds { k ≤ 400_000 }
    ensures { result ≡ variable_count lists.now k }
{
    (k + 1) * lists.segments() + k * lists.flips()
}
